//! The world at the start of a day.

ghost use Rattle.std.specs.Prelude.{◌≡◌, map, IfOk};
ghost use Rattle.town.specs.Views.{setup, chosen_in};
ghost use Rattle.rows.specs.PlanRows.{plan_rows};
ghost use Rattle.traffic.specs.Day.{at_home, world_start};

use crate::link_credits::LinkCredits;
use crate::world::World;
use rows::Plan;
use std::alloc::{AllocError, Global};
use town::DayInput;
use traffic::{Person, Place};

/// A person at the first activity of a plan.
pub fn at_home(plan: &Plan) -> Person
    ensures { result ≡ at_home (plan_rows plan.now) }
{
    Person {
        element: 0,
        place: Place::At {
            end: plan.acts.rows[0].end,
        },
    }
}

/// All persons at home.
fn all_at_home(alloc: Global, day: &DayInput) -> Result<Vec<Person>, AllocError>
    ensures { IfOk result (λ persons. persons.items ≡ map at_home (chosen_in day.now)) }
{
    let mut persons = Vec::new(alloc);
    for plan in day.chosen {
        persons.push(at_home(plan))?;
    }
    Ok(persons)
}

/// A world in which persons have these rows, and all else is as at the start of a day: no vehicle and no hole, and credit for one vehicle
/// on each link.
#[tactic(auto, unfolding(traffic::specs::Day::world_start, town::specs::Setups::setup_of))]
pub fn start_with(alloc: Global, day: &DayInput, persons: Vec<Person>) -> World
    ensures { result ≡ record (world_start (setup day.now)) { persons = persons.items } }
{
    World {
        rows: Vec::new(alloc),
        persons,
        credits: LinkCredits::new(alloc, day.town.network.links.len()),
        holes: Vec::new(alloc),
    }
}

/// The world at the start of a day: each person at the first activity, no vehicle and no hole, and
/// credit for one vehicle on each link.
///
/// # Errors
///
/// `AllocError`: there is no memory for the persons.
#[tactic(auto, unfolding(traffic::specs::Day::world_start, town::specs::Setups::setup_of))]
pub fn start(alloc: Global, day: &DayInput) -> Result<World, AllocError>
    ensures { IfOk result (λ world. world ≡ world_start (setup day.now)) }
{
    let persons = all_at_home(alloc, day)?;
    Ok(start_with(alloc, day, persons))
}
