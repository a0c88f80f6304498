//! ReRoute: a plan whose car legs have new routes.

ghost use Rattle.std.specs.Prelude.{◌≡◌, length, true, IfOk};
ghost use Rattle.rows.specs.PlanRows.{plan_rows};
ghost use Rattle.travel_times.specs.Times.{arrivals};
ghost use Rattle.router.specs.Legs.{are_on};
ghost use Rattle.replanning.specs.Legs.{rerouted_plan};

use crate::legs::rerouted_legs;
use router::Adjacency;
use rows::{Legs, Plan};
use std::alloc::{AllocError, Global};
use travel_times::LinkTimes;

/// A copy of a plan whose car legs have the routes of least arrival by these travel times, each left at the planned end of the activity
/// before it. A leg keeps its route where no walk joins its links, or where the new route would have more than `MAX_ROUTE_LINKS` links.
pub fn reroute(
    alloc: Global,
    adjacency: &Adjacency,
    times: &LinkTimes,
    plan: &Plan,
) -> Result<Plan, AllocError>
    requires times { length times.now ≡ length adjacency.now.ends }
    requires on { are_on (length adjacency.now.ends) plan.now.acts ≡ true }
    ensures { IfOk result (λ new. plan_rows new ≡ rerouted_plan adjacency.now (arrivals times.now) (plan_rows plan.now)) }
{
    let acts = plan.acts.try_clone()?;
    let legs = rerouted_legs(alloc, adjacency, times, &plan.acts.rows, &plan.legs.rows)?;
    Ok(Plan {
        acts,
        legs: Legs { rows: legs },
    })
}
