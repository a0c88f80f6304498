//! The turn of a node.

ghost use Rattle.std.specs.Prelude.{◌≡◌, ℕ, ◌+◌, ◌<◌, ◌≤◌, length, OnOk};
ghost use Rattle.limits.specs.declared.TheConstants.{LAST_SECOND, MAX_IN_LINKS};
ghost use Rattle.draws.specs.Words.{word};
ghost use Rattle.node_move.specs.{NodeStates.node_state, NodeStates.after_turn, NodeStates.AreReady, NodeStates.AreApart};
ghost use Rattle.node_move.specs.Spaces.{places_in, holes_in};

use crate::candidates::find_candidates;
use crate::crossings::Crossings;
use crate::drawings::draw;
use crate::space::Space;
use draws::Draws;
use queue_link::LinkState;
use rows::Stuck;
use std::alloc::AllocError;
use traffic::Occurrence;

/// What does not change over the turn of a node: its second, when a front is stuck in it, and the node's random words.
#[derive(Clone, Copy)]
pub struct NodeTurn {
    pub second: u32,
    pub stuck: Stuck,
    pub draws: Draws,
}

/// The turn of a node, by the links into it, in order, with their lights, and the places of the links out of it. Appends who enters
/// another link, who is removed, and what that tells.
///
/// # Errors
///
/// `AllocError`: there is no memory for a vehicle or an event. The links are then of no use.
pub fn move_node(
    turn: &NodeTurn,
    in_links: &mut [LinkState],
    greens: &[bool],
    space: &mut Space,
    crossings: &mut Crossings,
    said: &mut Vec<Occurrence>,
) -> Result<(), AllocError>
    requires second_in { turn.now.second < LAST_SECOND }
    requires few { length in_links.old ≤ MAX_IN_LINKS }
    requires lit { length greens.now ≡ length in_links.old }
    requires ready { AreReady in_links.old }
    requires apart { AreApart in_links.old }
    ensures run { OnOk result (
        node_state in_links.new (places_in space.new) crossings.new.entering.items crossings.new.removed.items said.new.items
        ≡ after_turn turn.now.stuck turn.now.second (word turn.now.draws) greens.now
        (node_state in_links.old (places_in space.old) crossings.old.entering.items crossings.old.removed.items said.old.items)) }
    ensures holes { OnOk result ((m : ℕ) → holes_in space.new m ≡ holes_in space.old m) }
{
    let alloc = *said.allocator();
    let left = find_candidates(alloc, turn.second, in_links, greens)?;
    draw(turn, in_links, left, space, crossings, said)?;
    Ok(())
}
