//! The links into a node that are green and have somebody at the front.

ghost use Rattle.std.specs.Prelude.{◌≡◌, ℕ, ◌^◌, ◌<◌, ◌≤◌, ◌&&◌, List, not, length, map, sum, get_or, filter};
ghost use Rattle.std.specs.Prelude.{IfOk};
ghost use Rattle.traffic.specs.{Lists.is_nil, Lists.without_at, Nodes.candidates, Nodes.weight_of};
ghost use Rattle.traffic.specs.declared.{moves.Move.Move, node_views.InLink.InLink};
ghost use Rattle.draws.specs.Choices.{pick};
ghost use Rattle.law_sleeping.specs.Able.{can_go, able_now, by_chosen};
ghost use Rattle.node_move.specs.{Choices.by_able, NodeStates.in_links_of, NodeStates.seen, NodeStates.ArePlaces, NodeStates.HaveWeights};
ghost use Rattle.node_move.specs.{NodeStates.all_marked, Spaces.places_in};
ghost use Rattle.node_move.specs.declared.candidates.Able.TheVariants.{Only, Several};

use crate::crossings::has_room;
use crate::space::Space;
use crate::turns::NodeTurn;
use draws::pick;
use queue_link::LinkState;
use std::alloc::{AllocError, Global};
use vehicles::{is_stuck, next_link};

/// Links by their places among the links into a node, with their weights.
#[derive(Drop)]
pub(crate) struct Candidates {
    pub(crate) places: Vec<usize>,
    pub(crate) weights: Vec<u64>,
}

/// The fronts of red links are first since this second.
fn mark_red(second: u32, in_links: &mut [LinkState], greens: &[bool])
    requires { length greens.now ≡ length in_links.old }
    ensures { in_links.new ≡ all_marked second in_links.old greens.now }
{
    for place in 0..greens.len() {
        if !greens[place] {
            in_links[place].mark_first(second);
        }
    }
}

/// Whether a link with this light is a candidate.
fn is_candidate(in_link: &LinkState, green: bool) -> bool
    ensures { result ≡ (green && not (is_nil in_link.now.lists.buffer)) }
{
    green && in_link.buffered() > 0
}

/// The candidates among the links into a node.
fn candidates_in(
    alloc: Global,
    in_links: &[LinkState],
    greens: &[bool],
) -> Result<Candidates, AllocError>
    requires lit { length greens.now ≡ length in_links.now }
    ensures value { IfOk result (λ left. seen in_links.now left.places.items ≡ candidates (in_links_of in_links.now greens.now)) }
    ensures places { IfOk result (λ left. ArePlaces (length in_links.now) left.places.items) }
    ensures weights { IfOk result (λ left. left.weights.items ≡ map weight_of (seen in_links.now left.places.items)) }
    ensures some { IfOk result (λ left. HaveWeights (seen in_links.now left.places.items)) }
    ensures few { IfOk result (λ left. length left.places.items ≤ length in_links.now) }
{
    let mut places = Vec::new(alloc);
    let mut weights = Vec::new(alloc);
    for place in 0..greens.len() {
        let in_link = &in_links[place];
        if is_candidate(in_link, greens[place]) {
            places.push(place)?;
            weights.push(u64::from(in_link.numbers().capacity))?;
        }
    }
    Ok(Candidates { places, weights })
}

/// Marks the red links; answers the candidates.
pub(crate) fn find_candidates(
    alloc: Global,
    second: u32,
    in_links: &mut [LinkState],
    greens: &[bool],
) -> Result<Candidates, AllocError>
    requires lit { length greens.now ≡ length in_links.old }
    ensures value { IfOk result (λ left. seen in_links.new left.places.items ≡ candidates (in_links_of in_links.old greens.now)) }
    ensures places { IfOk result (λ left. ArePlaces (length in_links.new) left.places.items) }
    ensures weights { IfOk result (λ left. left.weights.items ≡ map weight_of (seen in_links.new left.places.items)) }
    ensures some { IfOk result (λ left. HaveWeights (seen in_links.new left.places.items)) }
    ensures few { IfOk result (λ left. length left.places.items ≤ length in_links.new) }
    ensures marked { in_links.new ≡ all_marked second in_links.old greens.now }
{
    mark_red(second, in_links, greens);
    let left = candidates_in(alloc, in_links, greens)?;
    Ok(left)
}

/// How many links can hand over, as far as a drawing has to know.
#[derive(Clone, Copy)]
pub(crate) enum Able {
    Nobody,
    /// The one at this place of the candidates.
    Only(usize),
    Several,
}

/// Whether the front of a link can leave its buffer.
fn can_pass(turn: &NodeTurn, in_link: &LinkState, space: &Space) -> bool
    ensures { result ≡ can_go turn.now.stuck turn.now.second (places_in space.now) in_link.now.lists.buffer }
{
    match in_link.front_row() {
        None => false,
        Some(row) => {
            let places = space.places(next_link(&row.vehicle));
            has_room(places) || is_stuck(&turn.stuck, turn.second, row.second)
        }
    }
}

/// How many of these links can hand over.
pub(crate) fn count_able(
    turn: &NodeTurn,
    in_links: &[LinkState],
    places: &[usize],
    space: &Space,
) -> Able
    requires { ArePlaces (length in_links.now) places.now }
    ensures moves { (alone : InLink → List Move) (more : List Move) → by_able alone more (seen in_links.now places.now) result
        ≡ by_chosen alone more (filter (able_now turn.now.stuck turn.now.second (places_in space.now)) (seen in_links.now places.now)) }
    ensures within { (k : ℕ) → result ≡ Only k → k < length places.now }
    ensures several { result ≡ Several → 0 < length places.now }
{
    let mut only = None;
    for k in 0..places.len() {
        if can_pass(turn, &in_links[places[k]], space) {
            match only {
                None => only = Some(k),
                Some(_) => return Able::Several,
            }
        }
    }
    match only {
        None => Able::Nobody,
        Some(k) => Able::Only(k),
    }
}

impl Candidates {
    /// Takes out the one that a word draws; answers its place among the links.
    pub(crate) fn take(&mut self, word: u32) -> usize
        requires some { 0 < sum self.old.weights.items }
        requires fits { sum self.old.weights.items < 2 ^ 63 }
        requires even { length self.old.places.items ≡ length self.old.weights.items }
        ensures place { result ≡ get_or self.old.places.items (pick self.old.weights.items word) 0 }
        ensures within { pick self.old.weights.items word < length self.old.places.items }
        ensures places { self.new.places.items ≡ without_at (pick self.old.weights.items word) self.old.places.items }
        ensures weights { self.new.weights.items ≡ without_at (pick self.old.weights.items word) self.old.weights.items }
    {
        let k = pick(&self.weights, word);
        self.weights.remove(k);
        self.places.remove(k)
    }
}
