//! The routes that plans want, gathered by the nodes where they begin.

ghost use Rattle.std.specs.Prelude.{◌≡◌, ◌<◌, ◌+◌, ◌++◌, [], ◌∷◌, slice_set, length, map, replicate, true};
ghost use Rattle.std.specs.Prelude.{IfOk, IfSome, OnOk, option_to_list};
ghost use Rattle.rows.specs.PlanRows.{plan_rows, all_plan_rows};
ghost use Rattle.router.specs.Legs.{are_on};
ghost use Rattle.car_routes.specs.Plans.{own_are_on, all_are_on};
ghost use Rattle.car_routes.specs.Wanted.{wanted, wanted_in, wanted_by, wanted_by_all, row_of, WantsMore};

use events::{Route, Rows};
use router::Adjacency;
use rows::{Act, Leg, Plan, PlanList};
use std::alloc::{AllocError, Global};

/// The nodes to which routes are wanted, by the nodes from which they are.
pub type Targets = Rows<Route>;

/// No target for each of so many nodes.
pub fn no_targets(alloc: Global, nodes: usize) -> Result<Targets, AllocError>
    ensures { IfOk result (λ targets. targets ≡ replicate nodes []) }
{
    let mut rows = Vec::new(alloc);
    for _ in 0..nodes {
        rows.push(Route {
            rows: Vec::new(alloc),
        })?;
    }
    Ok(Targets { rows })
}

/// A route is wanted from a node to a node.
fn want(targets: &mut Targets, from: u32, to: u32) -> Result<(), AllocError>
    requires { from < length targets.old }
    ensures { OnOk result (targets.new ≡ slice_set targets.old from (row_of targets.old from ++ to ∷ [])) }
{
    let own = &mut targets.rows[from as usize];
    own.rows.push(to)?;
    Ok(())
}

/// The nodes between which a leg from one link to another wants a route, where it is a car leg without a link.
fn wanted(adjacency: &Adjacency, here: u32, there: u32, leg: &Leg) -> Option<(u32, u32)>
    requires here { here < length adjacency.now.ends }
    requires there { there < length adjacency.now.ends }
    ensures pair { result ≡ wanted adjacency.now.ends here there leg.now }
    ensures inside { IfSome result (λ pair. (pair.0 < adjacency.now.nodes) × (pair.1 < adjacency.now.nodes)) }
{
    let Leg::Car { route } = leg else {
        return None;
    };
    if route.is_empty() && here != there {
        return Some((adjacency.end(here), adjacency.start(there)));
    }
    None
}

/// The route that a leg from one link to another wants, where it is a car leg without a link.
fn want_leg(
    adjacency: &Adjacency,
    here: u32,
    there: u32,
    leg: &Leg,
    targets: &mut Targets,
) -> Result<(), AllocError>
    requires here { here < length adjacency.now.ends }
    requires there { there < length adjacency.now.ends }
    requires nodes { length targets.old ≡ adjacency.now.nodes }
    ensures { OnOk result (WantsMore adjacency.now.nodes (option_to_list (wanted adjacency.now.ends here there leg.now))
        targets.old targets.new) }
{
    if let Some((from, to)) = wanted(adjacency, here, there, leg) {
        want(targets, from, to)?;
    }
    Ok(())
}

/// The routes that the legs of a plan want.
fn want_legs(
    adjacency: &Adjacency,
    acts: &[Act],
    legs: &[Leg],
    targets: &mut Targets,
) -> Result<(), AllocError>
    requires pairs { length acts.now ≡ length legs.now + 1 }
    requires on { are_on (length adjacency.now.ends) acts.now ≡ true }
    requires nodes { length targets.old ≡ adjacency.now.nodes }
    ensures { OnOk result (WantsMore adjacency.now.nodes (wanted_in adjacency.now.ends acts.now legs.now) targets.old targets.new) }
{
    for place in 0..legs.len() {
        let (here, there) = (acts[place].link, acts[place + 1].link);
        want_leg(adjacency, here, there, &legs[place], targets)?;
    }
    Ok(())
}

/// The routes that a plan wants.
fn want_plan(adjacency: &Adjacency, plan: &Plan, targets: &mut Targets) -> Result<(), AllocError>
    requires on { are_on (length adjacency.now.ends) plan.now.acts ≡ true }
    requires nodes { length targets.old ≡ adjacency.now.nodes }
    ensures { OnOk result (WantsMore adjacency.now.nodes (wanted_in adjacency.now.ends plan.now.acts plan.now.legs)
        targets.old targets.new) }
{
    want_legs(adjacency, &plan.acts.rows, &plan.legs.rows, targets)
}

/// The routes that these plans want.
fn want_plans(
    adjacency: &Adjacency,
    plans: &[Plan],
    targets: &mut Targets,
) -> Result<(), AllocError>
    requires on { own_are_on (length adjacency.now.ends) (map plan_rows plans.now) ≡ true }
    requires nodes { length targets.old ≡ adjacency.now.nodes }
    ensures { OnOk result (WantsMore adjacency.now.nodes (wanted_by adjacency.now.ends (map plan_rows plans.now))
        targets.old targets.new) }
{
    for plan in plans {
        want_plan(adjacency, plan, targets)?;
    }
    Ok(())
}

/// The routes that the plans of a person want.
fn want_own(adjacency: &Adjacency, own: &PlanList, targets: &mut Targets) -> Result<(), AllocError>
    requires on { own_are_on (length adjacency.now.ends) (map plan_rows own.now) ≡ true }
    requires nodes { length targets.old ≡ adjacency.now.nodes }
    ensures { OnOk result (WantsMore adjacency.now.nodes (wanted_by adjacency.now.ends (map plan_rows own.now))
        targets.old targets.new) }
{
    want_plans(adjacency, &own.rows, targets)
}

/// The routes that the plans of all persons want.
pub fn want_all(
    adjacency: &Adjacency,
    plans: &[PlanList],
    targets: &mut Targets,
) -> Result<(), AllocError>
    requires on { all_are_on (length adjacency.now.ends) (all_plan_rows plans.now) ≡ true }
    requires nodes { length targets.old ≡ adjacency.now.nodes }
    ensures { OnOk result (WantsMore adjacency.now.nodes (wanted_by_all adjacency.now.ends (all_plan_rows plans.now))
        targets.old targets.new) }
{
    for own in plans {
        want_own(adjacency, own, targets)?;
    }
    Ok(())
}
