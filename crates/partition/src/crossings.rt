//! What may cross a border: links with their seconds, and the teleported legs of plans.

ghost use Rattle.std.specs.Prelude.{◌≡◌, ◌<◌, ◌≤◌, ◌+◌, ◌*◌, [], ◌∷◌, get_or, true, MatchOption};
ghost use Rattle.limits.specs.declared.TheConstants.{MAX_LEGS, MAX_PARTITIONS};
ghost use Rattle.rows.specs.declared.plan.Leg.TheVariants as leg;
ghost use Rattle.rows.specs.{Networks.is_link, PlanRows.plan_rows, PlanRows.act_in, PlanRows.leg_in};
ghost use Rattle.fixed_flow.specs.Link.{free_seconds};
ghost use Rattle.parts.specs.Owners.{hop};
ghost use Rattle.partition.specs.{Neighbours.teleported, Neighbours.end_node, Owned.owner_in};

use crate::owner::{Owner, owner_of_node};
use fixed_flow::free_seconds;
use rows::{Leg, Legs, LinkList, LinkRow, Plan, act_after, act_in};

/// A teleported leg: the links that it joins, and its seconds.
#[derive(Clone, Copy)]
pub(crate) struct Hop {
    pub(crate) from: u32,
    pub(crate) to: u32,
    pub(crate) seconds: u32,
}

/// The seconds of a leg, where it is teleported.
fn teleported(leg: &Leg) -> Option<u32>
    ensures { result ≡ teleported leg.now }
{
    match leg {
        Leg::Car { .. } => None,
        Leg::Teleport { mode: _, seconds } => Some(*seconds),
        Leg::Transit { .. } => None,
    }
}

/// Those of the leg at a place.
fn teleported_at(legs: &Legs, place: usize) -> Option<u32>
    ensures { result ≡ teleported (get_or legs.now place (leg.Car [])) }
{
    if place < legs.rows.len() {
        return teleported(&legs.rows[place]);
    }
    None
}

/// The leg of a plan at a place, where it is teleported.
pub(crate) fn hop_of(plan: &Plan, leg: u32) -> Option<Hop>
    requires { leg ≤ MAX_LEGS }
    ensures { let element = 2 * leg in
        let rows = plan_rows plan.now in
        let hops = hop (act_in rows element) (act_in rows (element + 2)) (leg_in rows element) in
        MatchOption result (hops ≡ []) (λ h. hops ≡ record { from = h.from; to = h.to; seconds = h.seconds } ∷ []) }
{
    let element = 2 * leg;
    match teleported_at(&plan.legs, leg as usize) {
        None => None,
        Some(seconds) => Some(Hop {
            from: act_in(plan, element).link,
            to: act_after(plan, element).link,
            seconds,
        }),
    }
}

/// The node at which a link ends; a number that is no link ends at node 0.
pub(crate) fn end_node(links: &LinkList, link: u32) -> u32
    ensures { result ≡ end_node links.now link }
{
    let place = link as usize;
    if place < links.rows.len() {
        return links.rows[place].to;
    }
    0
}

/// The seconds that a link takes at its free speed.
#[tactic(auto, unfolding(rows::specs::Networks::is_link, rows::specs::Networks::are_measures))]
pub(crate) fn link_seconds(nodes: usize, link: LinkRow) -> u32
    requires { is_link nodes link ≡ true }
    ensures { result ≡ free_seconds link.length link.speed }
{
    free_seconds(link.length, link.speed)
}

/// From which partition to which a teleported leg leads: its links belong to the partitions of the nodes at which they end.
pub(crate) fn owners_of_hop(owner: &Owner, links: &LinkList, hop: Hop) -> (u32, u32)
    ensures from { result.0 ≡ owner_in owner.now.of_node (end_node links.now hop.from) }
    ensures to { result.1 ≡ owner_in owner.now.of_node (end_node links.now hop.to) }
    ensures few { (result.0 < MAX_PARTITIONS) × (result.1 < MAX_PARTITIONS) }
{
    let from = owner_of_node(&owner.of_node, end_node(links, hop.from));
    let to = owner_of_node(&owner.of_node, end_node(links, hop.to));
    (from, to)
}
