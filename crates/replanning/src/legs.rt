//! Legs with new routes.

ghost use Rattle.std.specs.Prelude.{◌≡◌, ◌<◌, ◌≤◌, ◌+◌, ◌∷◌, ◌++◌, length, drop, true, IfOk};
ghost use Rattle.std.specs.List.{list_all};
ghost use Rattle.rows.specs.Plan.{is_leg};
ghost use Rattle.travel_times.specs.Times.{arrivals};
ghost use Rattle.router.specs.Legs.{are_on};
ghost use Rattle.replanning.specs.Legs.{rerouted_leg, rerouted_legs};

use router::{Adjacency, copied_leg, leg_route};
use rows::{Act, Leg};
use std::alloc::{AllocError, Global};
use travel_times::LinkTimes;

/// A leg between an activity and one on a link: a car leg has a new route, where there is one that is short enough.
#[tactic(auto, unfolding(crate::specs::Legs::rerouted_leg))]
fn rerouted_leg(
    alloc: Global,
    adjacency: &Adjacency,
    times: &LinkTimes,
    here: Act,
    there: u32,
    leg: &Leg,
) -> Result<Leg, AllocError>
    requires times { length times.now ≡ length adjacency.now.ends }
    requires here { here.link < length adjacency.now.ends }
    requires there { there < length adjacency.now.ends }
    ensures leg { IfOk result (λ new. new ≡ rerouted_leg adjacency.now (arrivals times.now) here there leg.now) }
    ensures sound { IfOk result (λ new. is_leg leg.now ≡ true → is_leg new ≡ true) }
{
    let Leg::Car { route: _ } = leg else {
        return copied_leg(leg);
    };
    let second = here.end.unwrap_or(0);
    match leg_route(alloc, adjacency, times, second, here.link, there)? {
        Some(route) => Ok(Leg::Car { route }),
        None => copied_leg(leg),
    }
}

/// The leg at a place, between the activity before it and the one after it.
#[tactic(auto, using(router::proofs::Walking::leg_more))]
fn rerouted_at(
    alloc: Global,
    adjacency: &Adjacency,
    times: &LinkTimes,
    acts: &[Act],
    legs: &[Leg],
    place: usize,
) -> Result<Leg, AllocError>
    requires times { length times.now ≡ length adjacency.now.ends }
    requires acts { length acts.now ≡ length legs.now + 1 }
    requires on { are_on (length adjacency.now.ends) acts.now ≡ true }
    requires place { place < length legs.now }
    ensures leg { IfOk result (λ new. rerouted_legs adjacency.now (arrivals times.now) (drop place acts.now) (drop place legs.now)
        ≡ new ∷ rerouted_legs adjacency.now (arrivals times.now) (drop (place + 1) acts.now) (drop (place + 1) legs.now)) }
    ensures sound { IfOk result (λ new. list_all is_leg legs.now ≡ true → is_leg new ≡ true) }
{
    let there = acts[place + 1].link;
    let leg = rerouted_leg(alloc, adjacency, times, acts[place], there, &legs[place])?;
    Ok(leg)
}

/// Each leg between the activity before it and the one after it.
pub fn rerouted_legs(
    alloc: Global,
    adjacency: &Adjacency,
    times: &LinkTimes,
    acts: &[Act],
    legs: &[Leg],
) -> Result<Vec<Leg>, AllocError>
    requires times { length times.now ≡ length adjacency.now.ends }
    requires acts { length acts.now ≡ length legs.now + 1 }
    requires on { are_on (length adjacency.now.ends) acts.now ≡ true }
    ensures legs { IfOk result (λ new. new.items ≡ rerouted_legs adjacency.now (arrivals times.now) acts.now legs.now) }
    ensures sound { IfOk result (λ new. list_all is_leg legs.now ≡ true → list_all is_leg new.items ≡ true) }
    ensures count { IfOk result (λ new. length new.items ≡ length legs.now) }
{
    let mut new = Vec::new(alloc);
    for place in 0..legs.len() {
        new.push(rerouted_at(alloc, adjacency, times, acts, legs, place)?)?;
    }
    Ok(new)
}
