//! The turn of a node by a single link.

ghost use Rattle.std.specs.Prelude.{◌≡◌, ℕ, [], ◌∷◌, OnOk};
ghost use Rattle.draws.specs.Words.{word};
ghost use Rattle.node_move.specs.{NodeStates.node_state, NodeStates.after_turn, Spaces.places_in, Spaces.holes_in};
ghost use Rattle.traffic.specs.Nodes.{HaveNext};

use crate::crossings::{Crossings, pass_node};
use crate::space::Space;
use crate::turns::NodeTurn;
use queue_link::LinkState;
use std::alloc::AllocError;
use traffic::Occurrence;

/// The turn of a node by one link into it, with its light: nothing is drawn, since each word would draw it. Appends who enters another
/// link, who is removed, and what that tells.
///
/// # Errors
///
/// `AllocError`: there is no memory for a vehicle or an event. The link is then of no use.
pub fn move_alone(
    turn: &NodeTurn,
    in_link: &mut LinkState,
    green: bool,
    space: &mut Space,
    crossings: &mut Crossings,
    said: &mut Vec<Occurrence>,
) -> Result<(), AllocError>
    requires ready { HaveNext in_link.old.lists.buffer }
    ensures run { OnOk result (
        node_state (in_link.new ∷ []) (places_in space.new) crossings.new.entering.items crossings.new.removed.items said.new.items
        ≡ after_turn turn.now.stuck turn.now.second (word turn.now.draws) (green ∷ [])
        (node_state (in_link.old ∷ []) (places_in space.old) crossings.old.entering.items crossings.old.removed.items said.old.items)) }
    ensures holes { OnOk result ((m : ℕ) → holes_in space.new m ≡ holes_in space.old m) }
{
    if !green {
        in_link.mark_first(turn.second);
        return Ok(());
    }
    prove!(in_link.numbers().capacity > 0);
    pass_node(turn, in_link, space, crossings, said)?;
    Ok(())
}
