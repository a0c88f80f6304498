//! When a node is woken again: it rests while the fronts of all links into it wait for places.

ghost use Rattle.std.specs.Prelude.{◌≡◌, ◌<◌, ◌+◌, None, length, set, OnOk};
ghost use Rattle.limits.specs.declared.TheConstants.{LAST_SECOND};
ghost use Rattle.law_sleeping.specs.Able.{can_go};
ghost use Rattle.node_move.specs.Spaces.{places_in};
ghost use Rattle.node_seconds.specs.Networks.{lane};
ghost use Rattle.calendar.specs.{Due.AreIn, Waking.earliest as sooner};
ghost use Rattle.traffic.specs.Nodes.{has_room};
ghost use Rattle.part_nodes.specs.Turns.{always_in, is_held, link_due, node_due, up_to, woken_again, HaveNumbersIn};

use crate::node_turns::NodePhase;
use crate::steady::is_always_green;
use calendar::Wakes;
use node_move::Space;
use queue_link::LinkState;
use rows::Stuck;
use std::alloc::AllocError;
use vehicles::{has_free_place, is_stuck, next_link};

/// Whether a link has a place free.
fn has_room(space: &Space, link: u32) -> bool
    ensures { result ≡ has_room (places_in space.now link) }
{
    match space.places(link) {
        None => false,
        Some(places) => has_free_place(places),
    }
}

/// Whether the front of a link can leave its buffer.
fn can_go(stuck: &Stuck, second: u32, link: &LinkState, space: &Space) -> bool
    ensures { result ≡ can_go stuck.now second (places_in space.now) link.now.lists.buffer }
{
    match link.front_row() {
        None => false,
        Some(row) => {
            has_room(space, next_link(&row.vehicle)) || is_stuck(stuck, second, row.second)
        }
    }
}

/// Whether the front of a link waits for a place: the link is always green, and its front cannot go.
fn is_held(phase: &NodePhase, link: &LinkState, space: &Space) -> bool
    requires { link.now.numbers.link < length phase.now.day.now.town.now.network.links }
    ensures { result ≡ is_held phase.now.day.now.town.now.settings.stuck phase.now.second
        (always_in phase.now.day.now.town.now.greens) space.now link.now.numbers.link link.now.lists.buffer }
{
    if is_always_green(phase, link.numbers().link) {
        return !can_go(&phase.day.town.settings.stuck, phase.second, link, space);
    }
    false
}

/// When a node has to look at a link into it again, if nobody else does anything: not at all where nobody is in its buffer; where its
/// front waits for a place, when it is stuck; and else in the next second.
fn link_due(phase: &NodePhase, link: &LinkState, space: &Space) -> Option<u64>
    requires second_in { phase.now.second < LAST_SECOND }
    requires there { link.now.numbers.link < length phase.now.day.now.town.now.network.links }
    ensures { result ≡ link_due phase.now.day.now.town.now.settings.stuck phase.now.second
        (always_in phase.now.day.now.town.now.greens) space.now link.now }
{
    match link.first_since() {
        None => None,
        Some(since) => {
            if is_held(phase, link, space) {
                let patience = phase.day.town.settings.stuck.seconds;
                return Some(u64::from(since) + u64::from(patience));
            }
            Some(u64::from(phase.second) + 1)
        }
    }
}

/// The same of the link in a slot.
#[tactic(auto, using(node_move::proofs::Places::is_at))]
fn due_at(phase: &NodePhase, slot: u32, links: &[LinkState], space: &Space) -> Option<u64>
    requires second_in { phase.now.second < LAST_SECOND }
    requires there { slot < length links.now }
    requires known { HaveNumbersIn (length phase.now.day.now.town.now.network.links) links.now }
    ensures { result ≡ link_due phase.now.day.now.town.now.settings.stuck phase.now.second
        (always_in phase.now.day.now.town.now.greens) space.now (lane links.now slot) }
{
    let link = &links[slot as usize];
    link_due(phase, link, space)
}

/// The earlier one of two seconds, where there is any.
fn sooner(second: Option<u64>, other: Option<u64>) -> Option<u64>
    ensures { result ≡ sooner second other }
{
    match (second, other) {
        (None, other) => other,
        (Some(second), None) => Some(second),
        (Some(second), Some(other)) => Some(second.min(other)),
    }
}

/// When a node has to look at the links into it again, if nobody else does anything.
#[tactic(auto, unfolding(crate::specs::Turns::node_due))]
fn node_due(phase: &NodePhase, slots: &[u32], links: &[LinkState], space: &Space) -> Option<u64>
    requires second_in { phase.now.second < LAST_SECOND }
    requires there { AreIn (length links.now) slots.now }
    requires known { HaveNumbersIn (length phase.now.day.now.town.now.network.links) links.now }
    ensures { result ≡ node_due phase.now.day.now.town.now.settings.stuck phase.now.second
        (always_in phase.now.day.now.town.now.greens) space.now links.now None slots.now }
{
    let mut due = None;
    let mut rest = slots;
    while let [slot, later @ ..] = rest {
        due = sooner(due, due_at(phase, *slot, links, space));
        rest = later;
    }
    due
}

/// The second, where it is not after the end of the day: so a table of wakes reaches no further.
fn up_to(end: u32, second: Option<u64>) -> Option<u32>
    ensures { result ≡ up_to end second }
{
    match second {
        None => None,
        Some(second) => {
            if second <= u64::from(end) {
                return Some(second as u32);
            }
            None
        }
    }
}

/// A node that had its turn is woken again in the next second, but where the fronts of all links into it wait for places: then when the
/// first of them is stuck, if that is in the day.
pub(crate) fn wake_again(
    phase: &NodePhase,
    node: u32,
    slots: &[u32],
    links: &[LinkState],
    space: &Space,
    wakes: &mut Wakes,
) -> Result<(), AllocError>
    requires second_in { phase.now.second < LAST_SECOND }
    requires node { node < length wakes.old }
    requires there { AreIn (length links.now) slots.now }
    requires known { HaveNumbersIn (length phase.now.day.now.town.now.network.links) links.now }
    ensures { OnOk result (wakes.new
        ≡ set wakes.old node (woken_again phase.now.day.now phase.now.second slots.now links.now space.now)) }
{
    let due = node_due(phase, slots, links, space);
    wakes.set(node, up_to(phase.day.town.settings.end_second, due))
}
