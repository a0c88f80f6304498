ghost use Rattle.std.specs.{Bool.OnTrue, Bool.OnFalse};
ghost use Rattle.std.specs.Prelude.{◌≡◌, ℕ, ◌+◌, ◌*◌, ◌^◌, ◌<◌, ◌≤◌, [], List, length, map, drop, slice_index};
ghost use Rattle.std.specs.Prelude.{replicate, IfOk, OnOk, IfSome, IfNone, Contains, None, Some, IsTrue, ◌↔◌, IsSomeAnd, All};
ghost use Rattle.limits.specs.declared.TheConstants.{MAX_NODES};
ghost use Rattle.travel_times.specs.Times.{arrivals};
ghost use Rattle.walks.specs.{Arrivals.Arrivals, Certificates.AreSmall, Rounds.label_at, Rounds.least_labels};
ghost use Rattle.walks.specs.Walks.{Ends, start_of, end_of, AreWithin};
ghost use Rattle.router.specs.Frontiers.{IsRelabelled, IsFrontier, GoesOn, IsSettledAt, IsNext, IsDone, work};
ghost use Rattle.router.specs.declared.label.TheConstants.{NO_SECOND};

use crate::adjacency::Adjacency;
use crate::label::Label;
use crate::star::Spoke;
use crate::waiting::{Entry, Waiting};
use std::alloc::{AllocError, Global};
use travel_times::LinkTimes;

/// How far a search has come.
#[derive(Drop)]
pub struct Frontier {
    pub from: u32,
    pub second: u64,
    /// Nodes with a label of at most this second are settled.
    pub horizon: u64,
    pub labels: Vec<Label>,
    pub queue: Waiting,
}

/// No label for each of so many nodes.
fn no_labels(alloc: Global, nodes: usize) -> Result<Vec<Label>, AllocError>
    ensures { IfOk result (λ labels. labels.items ≡ replicate nodes None) }
{
    let mut labels = Vec::new(alloc);
    labels.resize(nodes, Label::none())?;
    Ok(labels)
}

/// The search from a node in a second, before any link is looked along, from a table without labels and an empty queue.
fn begun(labels: Vec<Label>, queue: Waiting, from: u32, second: u64) -> Result<Frontier, AllocError>
    requires from { from < length labels.items }
    requires second { second ≤ 2 ^ 33 }
    requires none { labels.items ≡ replicate (length labels.items) None }
    requires nobody { queue ≡ [] }
    ensures search { IfOk result (λ frontier. (ends : Ends) (arrive : Arrivals)
        → IsFrontier (length labels.items) ends arrive frontier []) }
    ensures from { IfOk result (λ frontier. frontier.from ≡ from) }
    ensures second { IfOk result (λ frontier. frontier.second ≡ second) }
{
    let mut labels = labels;
    let mut queue = queue;
    labels[from as usize] = Label::some(second);
    queue.push(Entry { second, node: from })?;
    Ok(Frontier {
        from,
        second,
        horizon: 0,
        labels,
        queue,
    })
}

/// The search from a node in a second, before any link is looked along.
pub fn start(alloc: Global, nodes: usize, from: u32, second: u64) -> Result<Frontier, AllocError>
    requires from { from < nodes }
    requires second { second ≤ 2 ^ 33 }
    ensures search { IfOk result (λ frontier. (ends : Ends) (arrive : Arrivals) → IsFrontier nodes ends arrive frontier []) }
    ensures from { IfOk result (λ frontier. frontier.from ≡ from) }
    ensures second { IfOk result (λ frontier. frontier.second ≡ second) }
{
    let labels = no_labels(alloc, nodes)?;
    let queue = Waiting::new(alloc, second)?;
    let frontier = begun(labels, queue, from, second)?;
    Ok(frontier)
}

/// The same table with no label in it.
fn unlabelled(labels: Vec<Label>) -> Result<Vec<Label>, AllocError>
    ensures { IfOk result (λ none. none.items ≡ replicate (length labels.items) None) }
{
    let nodes = labels.len();
    let mut none = labels;
    none.clear();
    none.resize(nodes, Label::none())?;
    Ok(none)
}

/// The search from a node in a second, in the memory of an earlier search.
pub fn start_again(frontier: Frontier, from: u32, second: u64) -> Result<Frontier, AllocError>
    requires from { from < length frontier.labels.items }
    requires second { second ≤ 2 ^ 33 }
    ensures search { IfOk result (λ again. (ends : Ends) (arrive : Arrivals)
        → IsFrontier (length frontier.labels.items) ends arrive again []) }
    ensures from { IfOk result (λ again. again.from ≡ from) }
    ensures second { IfOk result (λ again. again.second ≡ second) }
{
    let Frontier {
        labels,
        mut queue,
        ..
    } = frontier;
    let labels = unlabelled(labels)?;
    queue.clear(second);
    let again = begun(labels, queue, from, second)?;
    Ok(again)
}

/// Gives a node an earlier label, with which it waits.
fn relabel(frontier: &mut Frontier, node: u32, second: u64) -> Result<(), AllocError>
    requires node { node < length frontier.old.labels.items }
    requires second { second < NO_SECOND }
    ensures { OnOk result (IsRelabelled frontier.old frontier.new node second) }
{
    frontier.labels[node as usize] = Label::some(second);
    frontier.queue.push(Entry { second, node })?;
    Ok(())
}

/// Looks along the link at this place, of links that begin at a node with the label `left`.
fn look(
    frontier: &mut Frontier,
    adjacency: &Adjacency,
    times: &LinkTimes,
    links: &[Spoke],
    place: usize,
    left: u64,
) -> Result<(), AllocError>
    requires place { place < length links.now }
    requires spokes { All (λ spoke. (spoke.link < length adjacency.now.ends) × (spoke.node ≡ end_of adjacency.now.ends spoke.link)
        × (spoke.node < adjacency.now.nodes)) links.now }
    requires few { adjacency.now.nodes ≤ MAX_NODES }
    requires times { length times.now ≡ length adjacency.now.ends }
    requires search { IsFrontier adjacency.now.nodes adjacency.now.ends (arrivals times.now) frontier.old
        (drop place (map (λ spoke. spoke.link) links.now)) }
    requires left { label_at frontier.old.labels.items
        (start_of adjacency.now.ends (slice_index (map (λ spoke. spoke.link) links.now) place)) ≡ Some left }
    requires horizon { frontier.old.horizon ≤ left }
    ensures search { OnOk result (IsFrontier adjacency.now.nodes adjacency.now.ends (arrivals times.now) frontier.new
        (drop (place + 1) (map (λ spoke. spoke.link) links.now))) }
    ensures left { OnOk result ((node : ℕ) → label_at frontier.old.labels.items node ≡ Some left →
        label_at frontier.new.labels.items node ≡ Some left) }
    ensures goes_on { OnOk result (GoesOn frontier.old frontier.new × (frontier.new.horizon ≡ frontier.old.horizon) ×
        (work frontier.new ≤ work frontier.old)) }
{
    let spoke = links[place];
    let arrival = times.arrive(spoke.link, left);
    if frontier.labels[spoke.node as usize].is_later(arrival) {
        relabel(frontier, spoke.node, arrival)?;
        return Ok(());
    }
    Ok(())
}

/// Looks along all links that begin at a node with the label `left`.
fn look_along(
    frontier: &mut Frontier,
    adjacency: &Adjacency,
    times: &LinkTimes,
    node: u32,
    left: u64,
) -> Result<(), AllocError>
    requires node { node < adjacency.now.nodes }
    requires few { adjacency.now.nodes ≤ MAX_NODES }
    requires times { length times.now ≡ length adjacency.now.ends }
    requires search { (open_links : List ℕ) → (
        (link : ℕ) → link < length adjacency.now.ends → start_of adjacency.now.ends link ≡ node →
        Contains open_links link)
        → IsFrontier adjacency.now.nodes adjacency.now.ends (arrivals times.now) frontier.old open_links }
    requires left { label_at frontier.old.labels.items node ≡ Some left }
    requires horizon { frontier.old.horizon ≤ left }
    ensures search { OnOk result (IsFrontier adjacency.now.nodes adjacency.now.ends (arrivals times.now) frontier.new []) }
    ensures goes_on { OnOk result (GoesOn frontier.old frontier.new × (work frontier.new ≤ work frontier.old)) }
{
    let links = adjacency.out_of(node);
    for place in 0..links.len() {
        look(frontier, adjacency, times, links, place, left)?;
    }
    Ok(())
}

/// The next node whose label stands, and its label. It is settled from now on.
fn next(frontier: &mut Frontier) -> Option<Entry>
    requires { All (λ entry. entry.node < length frontier.old.labels.items) frontier.old.queue }
    ensures some { IfSome result (λ entry. IsNext frontier.old frontier.new entry) }
    ensures none { IfNone result (IsDone frontier.old frontier.new) }
{
    while let Some(entry) = frontier.queue.pop() {
        if frontier.labels[entry.node as usize].get() == Some(entry.second) {
            frontier.horizon = entry.second;
            return Some(entry);
        }
    }
    None
}

/// Settles the next node, and looks along its links; `false` where no node is left to settle.
fn settle_next(
    frontier: &mut Frontier,
    adjacency: &Adjacency,
    times: &LinkTimes,
) -> Result<bool, AllocError>
    requires few { adjacency.now.nodes ≤ MAX_NODES }
    requires times { length times.now ≡ length adjacency.now.ends }
    requires search { IsFrontier adjacency.now.nodes adjacency.now.ends (arrivals times.now) frontier.old [] }
    ensures search { OnOk result (IsFrontier adjacency.now.nodes adjacency.now.ends (arrivals times.now) frontier.new []) }
    ensures goes_on { OnOk result (GoesOn frontier.old frontier.new) }
    ensures less { IfOk result (λ more. OnTrue more (work frontier.new < work frontier.old)) }
    ensures all { IfOk result (λ more. OnFalse more (frontier.new.queue ≡ [])) }
{
    let Some(entry) = next(frontier) else {
        return Ok(false);
    };
    look_along(frontier, adjacency, times, entry.node, entry.second)?;
    Ok(true)
}

/// Whether the label of a node is settled.
fn is_settled(frontier: &Frontier, node: u32) -> bool
    requires { node < length frontier.now.labels.items }
    ensures { IsTrue result ↔ IsSomeAnd (label_at frontier.now.labels.items node) (λ label. label ≤ frontier.now.horizon) }
{
    match frontier.labels[node as usize].get() {
        None => false,
        Some(label) => label <= frontier.horizon,
    }
}

/// Goes on until this node is settled, or no node is left.
pub fn settle(
    frontier: &mut Frontier,
    adjacency: &Adjacency,
    times: &LinkTimes,
    node: u32,
) -> Result<(), AllocError>
    requires node { node < adjacency.now.nodes }
    requires from { frontier.old.from < adjacency.now.nodes }
    requires inside { AreWithin adjacency.now.nodes adjacency.now.ends }
    requires few { adjacency.now.nodes ≤ MAX_NODES }
    requires times { length times.now ≡ length adjacency.now.ends }
    requires search { IsFrontier adjacency.now.nodes adjacency.now.ends (arrivals times.now) frontier.old [] }
    ensures search { OnOk result (IsFrontier adjacency.now.nodes adjacency.now.ends (arrivals times.now) frontier.new []) }
    ensures goes_on { OnOk result (GoesOn frontier.old frontier.new) }
    ensures settled { OnOk result (IsSettledAt adjacency.now.nodes adjacency.now.ends (arrivals times.now) frontier.new node) }
{
    while !is_settled(frontier, node) {
        if !settle_next(frontier, adjacency, times)? {
            return Ok(());
        }
    }
    Ok(())
}

/// Goes on until no node is left.
pub fn settle_all(
    frontier: &mut Frontier,
    adjacency: &Adjacency,
    times: &LinkTimes,
) -> Result<(), AllocError>
    requires from { frontier.old.from < adjacency.now.nodes }
    requires inside { AreWithin adjacency.now.nodes adjacency.now.ends }
    requires few { adjacency.now.nodes ≤ MAX_NODES }
    requires times { length times.now ≡ length adjacency.now.ends }
    requires search { IsFrontier adjacency.now.nodes adjacency.now.ends (arrivals times.now) frontier.old [] }
    ensures labels { OnOk result (frontier.new.labels.items
        ≡ least_labels adjacency.now.nodes adjacency.now.ends (arrivals times.now) frontier.old.from frontier.old.second) }
    ensures small { OnOk result (AreSmall frontier.new.labels.items) }
{
    while settle_next(frontier, adjacency, times)? {}
    Ok(())
}
