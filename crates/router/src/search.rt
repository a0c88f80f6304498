ghost use Rattle.std.specs.Prelude.{◌≡◌, ℕ, ◌^◌, ◌<◌, ◌≤◌, [], length, IfOk, MatchOption};
ghost use Rattle.limits.specs.declared.TheConstants.{MAX_NODES};
ghost use Rattle.travel_times.specs.Times.{arrivals};
ghost use Rattle.walks.specs.{Certificates.AreSmall, Walks.AreWithin, Walks.NoWalk};
ghost use Rattle.router.specs.{Frontiers.IsFrontier, Frontiers.IsSettledAt, Searches.asked, Ways.IsLeastWay};

use crate::adjacency::Adjacency;
use crate::frontier::{Frontier, settle, settle_all, start, start_again};
use crate::label::Label;
use crate::ways::followed_back;
use events::{Route, Rows};
use std::alloc::{AllocError, Global};
use std::marker::Model;
use travel_times::LinkTimes;

/// A label for each node that is reached: the second of arrival.
pub type Labels = Rows<Option<u64>>;

/// The chosen route to a node: its links, and the second of arrival.
#[derive(Debug, Drop)]
pub struct Way {
    pub links: Route,
    pub arrival: u64,
}

/// A search on a network from a node in a second. It goes on only as far as it is asked, and what it has found it keeps, so many
/// routes from one node cost no more than the farthest of them.
#[derive(Drop)]
pub struct Search<'a> {
    adjacency: &'a Adjacency,
    times: &'a LinkTimes,
    frontier: Frontier,
}

impl<'a> Model for Search<'a> {
    ghost use Rattle.router.specs.Ways.{Query};

    ghost Value = { Query };

    ghost use Rattle.router.specs.Searches.{query_of, IsAsked};

    ghost view = { query_of };

    ghost invariant = { IsAsked };
}

/// The chosen route to a settled node, or none where no walk leads there.
fn settled_way(
    alloc: Global,
    adjacency: &Adjacency,
    times: &LinkTimes,
    frontier: &Frontier,
    to: u32,
) -> Result<Option<Way>, AllocError>
    requires from { frontier.now.from < adjacency.now.nodes }
    requires to { to < adjacency.now.nodes }
    requires inside { AreWithin adjacency.now.nodes adjacency.now.ends }
    requires few { adjacency.now.nodes ≤ MAX_NODES }
    requires times { length times.now ≡ length adjacency.now.ends }
    requires search { IsFrontier adjacency.now.nodes adjacency.now.ends (arrivals times.now) frontier.now [] }
    requires settled { IsSettledAt adjacency.now.nodes adjacency.now.ends (arrivals times.now) frontier.now to }
    ensures { IfOk result (λ way. MatchOption way (NoWalk adjacency.now.ends frontier.now.from to)
        (λ found. IsLeastWay (asked adjacency.now times.now frontier.now) to found.links found.arrival)) }
{
    let Some(arrival) = frontier.labels[to as usize].get() else {
        return Ok(None);
    };
    let rows = followed_back(alloc, adjacency, times, &frontier.labels, frontier.from, to)?;
    Ok(Some(Way {
        links: Route { rows },
        arrival,
    }))
}

/// The same labels, each as an option.
fn options_of(alloc: Global, labels: &[Label]) -> Result<Vec<Option<u64>>, AllocError>
    ensures { IfOk result (λ options. options.items ≡ labels.now) }
{
    let mut options = Vec::new(alloc);
    for label in labels {
        options.push(label.get())?;
    }
    Ok(options)
}

impl<'a> Search<'a> {
    ghost use Rattle.router.specs.Ways.{least_of};

    /// The search from a node in a second, at most 2^33.
    pub fn new(
        alloc: Global,
        adjacency: &'a Adjacency,
        times: &'a LinkTimes,
        from: u32,
        second: u64,
    ) -> Result<Search<'a>, AllocError>
        requires from { from < adjacency.now.nodes }
        requires times { length times.now ≡ length adjacency.now.ends }
        requires second { second ≤ 2 ^ 33 }
        ensures { IfOk result (λ search. search ≡ record { graph = adjacency.now; times = times.now; from = from; second = second }) }
    {
        let frontier = start(alloc, adjacency.nodes(), from, second)?;
        Ok(Search {
            adjacency,
            times,
            frontier,
        })
    }

    /// The search from a node in a second, at most 2^33, by the same times. It takes the place and the memory of this one.
    pub fn again(self, from: u32, second: u64) -> Result<Search<'a>, AllocError>
        requires from { from < self.graph.nodes }
        requires second { second ≤ 2 ^ 33 }
        ensures { IfOk result (λ search. search
            ≡ record { graph = self.entry.graph; times = self.entry.times; from = from; second = second }) }
    {
        let Search {
            adjacency,
            times,
            frontier,
        } = self;
        let frontier = start_again(frontier, from, second)?;
        Ok(Search {
            adjacency,
            times,
            frontier,
        })
    }

    /// The chosen route to a node, or none exactly where no walk leads there; and the search, which has gone on until the node was
    /// settled. It is lost where memory runs out.
    pub fn way_to(self, alloc: Global, to: u32) -> Result<(Search<'a>, Option<Way>), AllocError>
        requires { to < self.graph.nodes }
        ensures same { IfOk result (λ found. found.0 ≡ self.entry) }
        ensures way { IfOk result (λ found. MatchOption found.1 (NoWalk self.entry.graph.ends self.entry.from to)
            (λ way. IsLeastWay self.entry to way.links way.arrival)) }
    {
        let Search {
            adjacency,
            times,
            mut frontier,
        } = self;
        settle(&mut frontier, adjacency, times, to)?;
        let way = settled_way(alloc, adjacency, times, &frontier, to)?;
        let search = Search {
            adjacency,
            times,
            frontier,
        };
        Ok((search, way))
    }

    /// The least arrivals at all nodes: the search goes on to its end.
    pub fn finish(self) -> Result<Labels, AllocError>
        ensures least { IfOk result (λ labels. labels ≡ least_of self.entry) }
        ensures small { IfOk result AreSmall }
    {
        let Search {
            adjacency,
            times,
            mut frontier,
        } = self;
        settle_all(&mut frontier, adjacency, times)?;
        let Frontier { labels, .. } = frontier;
        let rows = options_of(*labels.allocator(), &labels)?;
        Ok(Labels { rows })
    }
}
