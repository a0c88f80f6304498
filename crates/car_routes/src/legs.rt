//! Legs with the routes that were found for them.

ghost use Rattle.std.specs.{List.list_all, Prelude.◌≡◌, Prelude.◌<◌, Prelude.◌≤◌, Prelude.◌+◌, Prelude.◌∷◌};
ghost use Rattle.std.specs.Prelude.{◌++◌, [], true, length, List, ℕ, IfOk, IfSome, Option, unwrap_or, option_map, option_to_list};
ghost use Rattle.limits.specs.declared.TheConstants.{MAX_ROUTE_LINKS};
ghost use Rattle.rows.specs.Plan.{is_leg};
ghost use Rattle.rows.specs.declared.plan.Leg.TheVariants as leg;
ghost use Rattle.walks.specs.{Alike.TakesAlike, Arrivals.Arrivals, Walks.start_of, Walks.end_of};
ghost use Rattle.router.specs.{Legs.each_leg, Legs.are_on, Routes.way_to, Routes.allowed};
ghost use Rattle.car_routes.specs.{Found.AreNext, Plans.filled, Plans.routed_leg, Wanted.Pairs, Wanted.wanted, Wanted.wanted_in};

use crate::found::{Found, take_next};
use events::Route;
use router::{Adjacency, copied_leg, one_link, route_along};
use rows::{Act, Leg};
use std::alloc::{AllocError, Global};

/// The route, or no link where there is none.
fn route_or_none(alloc: Global, route: Option<Route>) -> Route
    ensures { result ≡ unwrap_or route [] }
{
    match route {
        Some(route) => route,
        None => Route {
            rows: Vec::new(alloc),
        },
    }
}

/// The route of a leg from a link to another one: the next that was found from the end of the first to the start of the other, with both
/// links, where there is one that is not too long.
fn next_route(
    alloc: Global,
    adjacency: &Adjacency,
    here: u32,
    there: u32,
    found: &mut Found,
) -> Result<Option<Route>, AllocError>
    requires here { here < length adjacency.now.ends }
    requires nodes { length found.old ≡ adjacency.now.nodes }
    ensures route { IfOk result (λ route. (arrive : Arrivals) (rest : Pairs)
        → AreNext adjacency.now arrive found.old ((end_of adjacency.now.ends here, start_of adjacency.now.ends there) ∷ rest)
        → (route ≡ allowed (option_map (λ way. here ∷ way ++ there ∷ [])
        (way_to adjacency.now arrive (end_of adjacency.now.ends here) 0 (start_of adjacency.now.ends there))))
        × AreNext adjacency.now arrive found.new rest) }
    ensures short { IfOk result (λ route. IfSome route (λ links. length links ≤ MAX_ROUTE_LINKS)) }
    ensures count { length found.new ≡ length found.old }
{
    let from = adjacency.end(here);
    match take_next(found, from) {
        Some(way) => {
            let route = route_along(alloc, here, &way, there)?;
            Ok(route)
        }
        None => Ok(None),
    }
}

/// The route of a leg between an activity and one on this link: its own, or where that has no link the one that was found.
fn filled(
    alloc: Global,
    adjacency: &Adjacency,
    here: Act,
    there: u32,
    route: &Route,
    found: &mut Found,
) -> Result<Route, AllocError>
    requires here { here.link < length adjacency.now.ends }
    requires nodes { length found.old ≡ adjacency.now.nodes }
    ensures route { IfOk result (λ new. (arrive : Arrivals) (rest : Pairs) → TakesAlike arrive
        → AreNext adjacency.now arrive found.old (option_to_list (wanted adjacency.now.ends here.link there (leg.Car route.now)) ++ rest)
        → (new ≡ filled adjacency.now arrive here there route.now) × AreNext adjacency.now arrive found.new rest) }
    ensures short { IfOk result (λ new. length route.now ≤ MAX_ROUTE_LINKS → length new ≤ MAX_ROUTE_LINKS) }
    ensures count { length found.new ≡ length found.old }
{
    if !route.is_empty() {
        return route.try_clone();
    }
    if here.link == there {
        let own = one_link(alloc, here.link)?;
        return Ok(own);
    }
    let next = next_route(alloc, adjacency, here.link, there, found)?;
    Ok(route_or_none(alloc, next))
}

/// A leg between an activity and one on this link, with its route filled.
#[tactic(auto, unfolding(crate::specs::Plans::routed_leg))]
fn routed_leg(
    alloc: Global,
    adjacency: &Adjacency,
    here: Act,
    there: u32,
    leg: &Leg,
    found: &mut Found,
) -> Result<Leg, AllocError>
    requires here { here.link < length adjacency.now.ends }
    requires nodes { length found.old ≡ adjacency.now.nodes }
    ensures leg { IfOk result (λ routed. (arrive : Arrivals) (rest : Pairs) → TakesAlike arrive
        → AreNext adjacency.now arrive found.old (option_to_list (wanted adjacency.now.ends here.link there leg.now) ++ rest)
        → (routed ≡ routed_leg adjacency.now arrive here there leg.now) × AreNext adjacency.now arrive found.new rest) }
    ensures sound { IfOk result (λ routed. is_leg leg.now ≡ true → is_leg routed ≡ true) }
    ensures count { length found.new ≡ length found.old }
{
    let Leg::Car { route } = leg else {
        return copied_leg(leg);
    };
    let route = filled(alloc, adjacency, here, there, route, found)?;
    Ok(Leg::Car { route })
}

/// The legs between these activities, with their routes filled.
pub fn routed_legs(
    alloc: Global,
    adjacency: &Adjacency,
    acts: &[Act],
    legs: &[Leg],
    found: &mut Found,
) -> Result<Vec<Leg>, AllocError>
    requires pairs { length acts.now ≡ length legs.now + 1 }
    requires on { are_on (length adjacency.now.ends) acts.now ≡ true }
    requires nodes { length found.old ≡ adjacency.now.nodes }
    ensures legs { IfOk result (λ new. (arrive : Arrivals) (rest : Pairs) → TakesAlike arrive
        → AreNext adjacency.now arrive found.old (wanted_in adjacency.now.ends acts.now legs.now ++ rest)
        → (new.items ≡ each_leg (routed_leg adjacency.now arrive) acts.now legs.now) × AreNext adjacency.now arrive found.new rest) }
    ensures sound { IfOk result (λ new. list_all is_leg legs.now ≡ true → list_all is_leg new.items ≡ true) }
    ensures count { IfOk result (λ new. length new.items ≡ length legs.now) }
    ensures nodes { length found.new ≡ length found.old }
{
    let mut new = Vec::new(alloc);
    for place in 0..legs.len() {
        let there = acts[place + 1].link;
        let leg = routed_leg(alloc, adjacency, acts[place], there, &legs[place], found)?;
        new.push(leg)?;
    }
    Ok(new)
}
