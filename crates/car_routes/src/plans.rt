//! Plans with the routes that were found for their legs.

ghost use Rattle.std.specs.Prelude.{◌≡◌, ◌++◌, [], length, map, IfOk, true};
ghost use Rattle.rows.specs.PlanRows.{plan_rows, all_plan_rows};
ghost use Rattle.travel_times.specs.Times.{arrivals, free_times};
ghost use Rattle.walks.specs.{Alike.TakesAlike, Arrivals.Arrivals};
ghost use Rattle.router.specs.{Graphs.graph_of, Legs.are_on};
ghost use Rattle.car_routes.specs.{Found.AreNext, Plans.routed_plan, Plans.all_routed, Plans.own_are_on, Plans.all_are_on};
ghost use Rattle.car_routes.specs.Wanted.{Pairs, wanted_in, wanted_by, wanted_by_all};

use crate::found::Found;
use crate::legs::routed_legs;
use crate::searches::all_ways;
use crate::wanted::{no_targets, want_all};
use router::Adjacency;
use rows::{Legs, Network, Plan, PlanList, PlanLists};
use std::alloc::{AllocError, Global};
use std::thread::Threads;
use travel_times::LinkTimes;

/// A plan with routes for its car legs.
fn routed_plan(
    alloc: Global,
    adjacency: &Adjacency,
    plan: &Plan,
    found: &mut Found,
) -> Result<Plan, AllocError>
    requires on { are_on (length adjacency.now.ends) plan.now.acts ≡ true }
    requires nodes { length found.old ≡ adjacency.now.nodes }
    ensures plan { IfOk result (λ routed. (arrive : Arrivals) (rest : Pairs) → TakesAlike arrive
        → AreNext adjacency.now arrive found.old (wanted_in adjacency.now.ends plan.now.acts plan.now.legs ++ rest)
        → (plan_rows routed ≡ routed_plan adjacency.now arrive (plan_rows plan.now)) × AreNext adjacency.now arrive found.new rest) }
    ensures count { length found.new ≡ length found.old }
{
    let acts = plan.acts.try_clone()?;
    let rows = routed_legs(alloc, adjacency, &plan.acts.rows, &plan.legs.rows, found)?;
    Ok(Plan {
        acts,
        legs: Legs { rows },
    })
}

/// These plans with routes for their car legs.
fn routed_plans(
    alloc: Global,
    adjacency: &Adjacency,
    plans: &[Plan],
    found: &mut Found,
) -> Result<Vec<Plan>, AllocError>
    requires on { own_are_on (length adjacency.now.ends) (map plan_rows plans.now) ≡ true }
    requires nodes { length found.old ≡ adjacency.now.nodes }
    ensures plans { IfOk result (λ rows. (arrive : Arrivals) (rest : Pairs) → TakesAlike arrive
        → AreNext adjacency.now arrive found.old (wanted_by adjacency.now.ends (map plan_rows plans.now) ++ rest)
        → (map plan_rows rows.items ≡ map (routed_plan adjacency.now arrive) (map plan_rows plans.now))
        × AreNext adjacency.now arrive found.new rest) }
    ensures count { length found.new ≡ length found.old }
{
    let mut rows = Vec::new(alloc);
    for plan in plans {
        let routed = routed_plan(alloc, adjacency, plan, found)?;
        rows.push(routed)?;
    }
    Ok(rows)
}

/// The plans of a person with routes for their car legs.
fn routed_own(
    alloc: Global,
    adjacency: &Adjacency,
    own: &PlanList,
    found: &mut Found,
) -> Result<PlanList, AllocError>
    requires on { own_are_on (length adjacency.now.ends) (map plan_rows own.now) ≡ true }
    requires nodes { length found.old ≡ adjacency.now.nodes }
    ensures plans { IfOk result (λ routed. (arrive : Arrivals) (rest : Pairs) → TakesAlike arrive
        → AreNext adjacency.now arrive found.old (wanted_by adjacency.now.ends (map plan_rows own.now) ++ rest)
        → (map plan_rows routed ≡ map (routed_plan adjacency.now arrive) (map plan_rows own.now))
        × AreNext adjacency.now arrive found.new rest) }
    ensures count { length found.new ≡ length found.old }
{
    let rows = routed_plans(alloc, adjacency, &own.rows, found)?;
    Ok(PlanList { rows })
}

/// The plans of all persons with routes for their car legs.
fn routed_all(
    alloc: Global,
    adjacency: &Adjacency,
    plans: PlanLists,
    found: &mut Found,
) -> Result<PlanLists, AllocError>
    requires on { all_are_on (length adjacency.now.ends) (all_plan_rows plans) ≡ true }
    requires nodes { length found.old ≡ adjacency.now.nodes }
    ensures { IfOk result (λ routed. (arrive : Arrivals) → TakesAlike arrive
        → AreNext adjacency.now arrive found.old (wanted_by_all adjacency.now.ends (all_plan_rows plans))
        → all_plan_rows routed ≡ all_routed adjacency.now arrive (all_plan_rows plans)) }
{
    let mut rows = Vec::new(alloc);
    for own in plans.rows {
        let routed = routed_own(alloc, adjacency, &own, found)?;
        rows.push(routed)?;
    }
    Ok(PlanLists { rows })
}

/// The routes that these plans want, found.
fn found_for<R: Threads + Sync>(
    rt: &R,
    alloc: Global,
    adjacency: &Adjacency,
    times: &LinkTimes,
    plans: &[PlanList],
) -> Result<Found, AllocError>
    requires on { all_are_on (length adjacency.now.ends) (all_plan_rows plans.now) ≡ true }
    requires times { length times.now ≡ length adjacency.now.ends }
    ensures count { IfOk result (λ found. length found ≡ adjacency.now.nodes) }
    ensures next { IfOk result (λ found. AreNext adjacency.now (arrivals times.now) found
        (wanted_by_all adjacency.now.ends (all_plan_rows plans.now))) }
{
    let mut targets = no_targets(alloc, adjacency.nodes())?;
    want_all(adjacency, plans, &mut targets)?;
    let found = all_ways(rt, alloc, adjacency, times, &targets)?;
    Ok(found)
}

/// The plans of all persons with routes for their car legs, by these travel times.
fn routed_by<R: Threads + Sync>(
    rt: &R,
    alloc: Global,
    adjacency: &Adjacency,
    times: &LinkTimes,
    plans: PlanLists,
) -> Result<PlanLists, AllocError>
    requires on { all_are_on (length adjacency.now.ends) (all_plan_rows plans) ≡ true }
    requires times { length times.now ≡ length adjacency.now.ends }
    ensures { IfOk result (λ routed. TakesAlike (arrivals times.now)
        → all_plan_rows routed ≡ all_routed adjacency.now (arrivals times.now) (all_plan_rows plans)) }
{
    let mut found = found_for(rt, alloc, adjacency, times, &plans.rows)?;
    let routed = routed_all(alloc, adjacency, plans, &mut found)?;
    Ok(routed)
}

/// The plans of all persons, each car leg of which has a route: its own, or, where it has no link, the route of least arrival at the links'
/// free speed, left at the planned end of the activity before. A leg between links that no walk joins, or whose route would have more
/// than `MAX_ROUTE_LINKS` links, still has none.
///
/// One search serves all legs that begin at a node, and the searches are spread over as many threads as there are processors. Each thread
/// keeps the labels of one search; beside the routes, the call keeps four bytes for each of them.
pub fn with_routes<R: Threads + Sync>(
    rt: &R,
    alloc: Global,
    network: &Network,
    plans: PlanLists,
) -> Result<PlanLists, AllocError>
    requires on { all_are_on (length network.now.links) (all_plan_rows plans) ≡ true }
    ensures { IfOk result (λ routed. all_plan_rows routed
        ≡ all_routed (graph_of network.now) (arrivals (free_times network.now.links)) (all_plan_rows plans)) }
{
    let adjacency = Adjacency::of(alloc, network)?;
    let times = LinkTimes::free(alloc, network)?;
    let routed = routed_by(rt, alloc, &adjacency, &times, plans)?;
    Ok(routed)
}
