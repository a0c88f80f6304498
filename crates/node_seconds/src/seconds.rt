//! The turn of a node.

ghost use Rattle.std.specs.Prelude.{◌≡◌, ◌<◌, ◌≤◌, [], ◌∷◌, length, IfOk};
ghost use Rattle.limits.specs.declared.TheConstants.{LAST_SECOND, MAX_IN_LINKS};
ghost use Rattle.traffic.specs.Nodes.{HaveNext};
ghost use Rattle.calendar.specs.Due.{AreIn};
ghost use Rattle.node_seconds.specs.{Networks.lane, Networks.AreOnce, Turns.AreApartIn, Turns.AreReadyInto, Turns.IsNodeSecond};

use crate::taking::{put_links, take_links};
use node_move::{Crossings, Entering, NodeTurn, Space, move_alone, move_node};
use queue_link::LinkState;
use std::alloc::{AllocError, Global};
use traffic::Occurrence;

/// Nobody has left a link yet.
fn no_crossings(alloc: Global) -> Crossings
    ensures entering { result.entering.items ≡ [] }
    ensures removed { result.removed.items ≡ [] }
{
    Crossings {
        entering: Vec::new(alloc),
        removed: Vec::new(alloc),
    }
}

/// Those who enter links.
fn entering_of(crossings: Crossings) -> Vec<Entering>
    ensures { result ≡ crossings.entering }
{
    let Crossings {
        entering,
        removed: _removed,
    } = crossings;
    entering
}

/// The turn of a node by the slot of the only link into it, with its light. Answers who enters another link.
fn single_second(
    turn: &NodeTurn,
    slot: u32,
    green: bool,
    links: &mut [LinkState],
    space: &mut Space,
    said: &mut Vec<Occurrence>,
) -> Result<Vec<Entering>, AllocError>
    requires there { slot < length links.old }
    requires ready { HaveNext (lane links.old slot).lists.buffer }
    ensures { IfOk result (λ entering. IsNodeSecond turn.now (slot ∷ []) (green ∷ []) links.old links.new space.old space.new
        entering.items said.old.items said.new.items) }
{
    let mut crossings = no_crossings(*said.allocator());
    let link = &mut links[slot as usize];
    move_alone(turn, link, green, space, &mut crossings, said)?;
    Ok(entering_of(crossings))
}

/// The turn of a node in a second, by the slots of the links into it, in the order of their numbers, with their lights: what these links
/// hand over leaves their buffers, and takes places. Answers who enters another link, in order, and appends what that tells. It is the turn
/// that `traffic` gives the node by these links and places; who is removed is told of. Several links are taken out of the network for it.
///
/// # Errors
///
/// `AllocError`: there is no memory for a vehicle or an event. The links are then of no use.
pub fn node_second(
    turn: &NodeTurn,
    into: &[u32],
    greens: &[bool],
    links: &mut [LinkState],
    space: &mut Space,
    said: &mut Vec<Occurrence>,
) -> Result<Vec<Entering>, AllocError>
    requires second_in { turn.now.second < LAST_SECOND }
    requires few { length into.now ≤ MAX_IN_LINKS }
    requires lit { length greens.now ≡ length into.now }
    requires there { AreIn (length links.old) into.now }
    requires once { AreOnce into.now }
    requires apart { AreApartIn links.old into.now }
    requires ready { AreReadyInto links.old into.now }
    ensures { IfOk result (λ entering. IsNodeSecond turn.now into.now greens.now links.old links.new space.old space.new
        entering.items said.old.items said.new.items) }
{
    if let [slot] = into {
        if let [green] = greens {
            return single_second(turn, *slot, *green, links, space, said);
        }
    }
    let mut taken = take_links(*said.allocator(), links, into)?;
    let mut crossings = no_crossings(*said.allocator());
    move_node(turn, &mut taken, greens, space, &mut crossings, said)?;
    put_links(links, into, taken);
    Ok(entering_of(crossings))
}
