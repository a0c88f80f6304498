ghost use Rattle.std.specs.Prelude.{◌≡◌, ◌<◌, length};
ghost use Rattle.rows.specs.PlanRows.{plan_rows};
ghost use Rattle.traffic.specs.Setup.{person_plan};
ghost use Rattle.town.specs.Views.{setup};

use crate::town::Town;
use rows::Plan;

/// What a day is made from: a town, the chosen plan of each of its persons, by their numbers, and the iteration, from
/// which the random words of the day come.
#[derive(Clone, Copy)]
pub struct DayInput<'a> {
    pub town: &'a Town,
    pub chosen: &'a [Plan],
    pub iteration: u32,
}

/// The plan that a person has chosen.
pub fn chosen_plan<'a>(day: &DayInput<'a>, person: u32) -> &'a Plan
    requires { person < length day.now.chosen.now }
    ensures { person_plan (setup day.now) person ≡ plan_rows result.now }
{
    &day.chosen[person as usize]
}
