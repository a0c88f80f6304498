//! What a day is made from.

ghost use Rattle.std.specs.{List.list_all, Prelude.◌≡◌, Prelude.map, Prelude.true};
ghost use Rattle.rows.specs.PlanRows.{plan_rows};
ghost use Rattle.town.specs.{Fits.fits, Views.rows_of};
ghost use Rattle.law_in_range.specs.Setups.{HaveFittingPlans};

use crate::files::scenario_of;
use edge_files::InFile;
use plan_memory::Memory;
use router::copied_legs;
use rows::{Legs, Plan};
use scenario::Scenario;
use std::alloc::{AllocError, Global};
use std::thread::Threads;
use town::{DayInput, Town, plan_fits};

/// A town, and the plan that each of its persons has chosen.
#[derive(Drop)]
pub struct Fixture {
    pub town: Town,
    /// In the order of persons.
    pub chosen: Vec<Plan>,
}

/// Whether each plan fits the town.
fn all_fit(town: &Town, chosen: &[Plan]) -> bool
    ensures { result ≡ list_all (fits (rows_of town.now)) (map plan_rows chosen.now) }
{
    for plan in chosen {
        if !plan_fits(town, plan) {
            return false;
        }
    }
    true
}

/// Whether there is a plan for each person of the town, and each of them fits it: what the calls of a day ask for.
pub fn have_fitting_plans(day: &DayInput) -> bool
    ensures { result ≡ true → HaveFittingPlans day.now }
{
    day.town.book.persons.len() as usize == day.chosen.len() && all_fit(day.town, day.chosen)
}

fn copied_plan(alloc: Global, plan: &Plan) -> Result<Plan, AllocError> {
    let acts = plan.acts.try_clone()?;
    let legs = copied_legs(alloc, &plan.legs.rows)?;
    Ok(Plan {
        acts,
        legs: Legs { rows: legs },
    })
}

fn copied_plans(alloc: Global, memories: &[Memory]) -> Result<Vec<Plan>, AllocError> {
    let mut plans = Vec::new(alloc);
    for memory in memories {
        plans.push(copied_plan(alloc, memory.chosen_plan())?)?;
    }
    Ok(plans)
}

/// The plans that persons have chosen; none where memory is wanting.
fn chosen_plans(alloc: Global, memories: &[Memory]) -> Vec<Plan> {
    match copied_plans(alloc, memories) {
        Ok(plans) => plans,
        Err(_) => Vec::new(alloc),
    }
}

/// The town and the plans of these texts, where they have no fault. A file of which none is given is not there.
pub fn fixture_of<R: Threads + Sync>(
    rt: &R,
    alloc: Global,
    texts: &[(InFile, &str)],
) -> Option<Fixture> {
    let scenario = scenario_of(rt, alloc, texts)?;
    let Scenario {
        town,
        memories,
        tables: _,
        learning: _,
        last_iteration: _,
    } = scenario;
    let chosen = chosen_plans(alloc, &memories.rows);
    Some(Fixture { town, chosen })
}
