//! The order in which the links into a node hand over.

ghost use Rattle.std.specs.Prelude.{◌≡◌, ◌≢◌, ℕ, ◌<◌, ◌≤◌, true, length, map, get_or, OnOk};
ghost use Rattle.limits.specs.declared.TheConstants.{LAST_SECOND, MAX_IN_LINKS};
ghost use Rattle.draws.specs.Words.{word};
ghost use Rattle.traffic.specs.Nodes.{pass_node_all, draw, weight_of};
ghost use Rattle.node_move.specs.NodeStates.{in_link_of, seen, ArePlaces, AreReady, AreApart, HaveWeights, no_link, node_state, node_run};
ghost use Rattle.node_move.specs.Spaces.{places_in, holes_in};

use crate::candidates::{Able, Candidates, count_able};
use crate::crossings::{Crossings, pass_node};
use crate::space::Space;
use crate::turns::NodeTurn;
use queue_link::LinkState;
use std::alloc::AllocError;
use traffic::Occurrence;

/// The link at a place hands over.
fn pass_at(
    turn: &NodeTurn,
    in_links: &mut [LinkState],
    place: usize,
    space: &mut Space,
    crossings: &mut Crossings,
    said: &mut Vec<Occurrence>,
) -> Result<(), AllocError>
    requires within { place < length in_links.old }
    requires ready { AreReady in_links.old }
    requires apart { AreApart in_links.old }
    ensures run { OnOk result (
        node_state in_links.new (places_in space.new) crossings.new.entering.items crossings.new.removed.items said.new.items
        ≡ node_run (pass_node_all turn.now.stuck turn.now.second (places_in space.old)
        (in_link_of (get_or in_links.old place no_link) true))
        (node_state in_links.old (places_in space.old) crossings.old.entering.items crossings.old.removed.items said.old.items)) }
    ensures holes { OnOk result ((m : ℕ) → holes_in space.new m ≡ holes_in space.old m) }
    ensures ready { OnOk result (AreReady in_links.new) }
    ensures apart { OnOk result (AreApart in_links.new) }
    ensures others { OnOk result ((q : ℕ) → q ≢ place → get_or in_links.new q no_link ≡ get_or in_links.old q no_link) }
    ensures count { length in_links.new ≡ length in_links.old }
{
    pass_node(turn, &mut in_links[place], space, crossings, said)?;
    Ok(())
}

/// The drawing: while several candidates can hand over, a word draws one of all candidates, which hands over and is no candidate any
/// more; where only one can, it hands over. No word is read for it, nor where nobody can.
pub(crate) fn draw(
    turn: &NodeTurn,
    in_links: &mut [LinkState],
    left: Candidates,
    space: &mut Space,
    crossings: &mut Crossings,
    said: &mut Vec<Occurrence>,
) -> Result<(), AllocError>
    requires second_in { turn.now.second < LAST_SECOND }
    requires few { length left.places.items ≤ MAX_IN_LINKS }
    requires places { ArePlaces (length in_links.old) left.places.items }
    requires weights { left.weights.items ≡ map weight_of (seen in_links.old left.places.items) }
    requires some { HaveWeights (seen in_links.old left.places.items) }
    requires ready { AreReady in_links.old }
    requires apart { AreApart in_links.old }
    ensures run { OnOk result (
        node_state in_links.new (places_in space.new) crossings.new.entering.items crossings.new.removed.items said.new.items
        ≡ node_run (draw turn.now.stuck turn.now.second (word turn.now.draws) (length left.places.items) 0
        (seen in_links.old left.places.items) (places_in space.old))
        (node_state in_links.old (places_in space.old) crossings.old.entering.items crossings.old.removed.items said.old.items)) }
    ensures holes { OnOk result ((m : ℕ) → holes_in space.new m ≡ holes_in space.old m) }
{
    let mut left = left;
    let mut number = 0;
    'picks: loop {
        match count_able(turn, in_links, &left.places, space) {
            Able::Nobody => return Ok(()),
            Able::Only(k) => {
                pass_at(turn, in_links, left.places[k], space, crossings, said)?;
                return Ok(());
            }
            Able::Several => {
                let word = turn.draws.word(16 * u64::from(turn.second) + number);
                let place = left.take(word);
                pass_at(turn, in_links, place, space, crossings, said)?;
                number += 1;
            }
        }
    }
}
