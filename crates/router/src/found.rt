ghost use Rattle.std.specs.Prelude.{◌≡◌, ℕ, ◌^◌, ◌<◌, ◌≤◌, length, IfOk, IfErr};
ghost use Rattle.travel_times.specs.Times.{arrivals};
ghost use Rattle.rows.specs.Joined.{ends_of};
ghost use Rattle.walks.specs.{Certificates.IsCertificate, Walks.NoWalk};
ghost use Rattle.router.specs.Ways.{least_of, IsLeastWay, query_on};

use crate::adjacency::Adjacency;
use crate::search::{Labels, Search, Way};
use events::Route;
use rows::Network;
use std::alloc::{AllocError, Global};
use travel_times::LinkTimes;

/// A route of least arrival, with the labels that prove that no walk arrives earlier.
#[derive(Debug, Drop)]
pub struct Found {
    pub links: Route,
    pub arrival: u64,
    pub labels: Labels,
}

/// Why there is no route.
#[derive(Clone, Copy, Debug, PartialEq, Eq)]
pub enum RouteError {
    /// No walk joins the nodes.
    NoRoute,
    NoMemory,
}

/// The route of least arrival from a node in a second, at most 2^33, to another node, the chosen one among those that arrive then;
/// and the least arrivals at all nodes, which are a certificate of it.
pub fn least(
    alloc: Global,
    network: &Network,
    times: &LinkTimes,
    from: u32,
    to: u32,
    second: u64,
) -> Result<Found, RouteError>
    requires from { from < length network.now.nodes }
    requires to { to < length network.now.nodes }
    requires times { length times.now ≡ length network.now.links }
    requires second { second ≤ 2 ^ 33 }
    ensures way { IfOk result (λ found. IsLeastWay (query_on network.now times.now from second) to found.links found.arrival) }
    ensures labels { IfOk result (λ found. found.labels ≡ least_of (query_on network.now times.now from second)) }
    ensures certificate { IfOk result (λ found. IsCertificate (length network.now.nodes) (ends_of network.now.links)
        (arrivals times.now) from second found.labels) }
    ensures no_route { IfErr result (λ error. error ≡ RouteError.NoRoute → NoWalk (ends_of network.now.links) from to) }
{
    let Ok(adjacency) = Adjacency::of(alloc, network) else {
        return Err(RouteError::NoMemory);
    };
    let Ok(search) = Search::new(alloc, &adjacency, times, from, second) else {
        return Err(RouteError::NoMemory);
    };
    let Ok((search, way)) = search.way_to(alloc, to) else {
        return Err(RouteError::NoMemory);
    };
    let Some(Way { links, arrival }) = way else {
        return Err(RouteError::NoRoute);
    };
    let Ok(labels) = search.finish() else {
        return Err(RouteError::NoMemory);
    };
    Ok(Found {
        links,
        arrival,
        labels,
    })
}
