//! The searches: one from each node from which a route is wanted, spread over the processors.

ghost use Rattle.std.specs.Prelude.{◌≡◌, ◌*◌, ◌<◌, ◌≤◌, [], ℕ, length, map, All, IfOk, IfSome};
ghost use Rattle.std.specs.{Int.div_ceil, List.flat_map, List.range_with_len};
ghost use Rattle.limits.specs.declared.TheConstants.{MAX_NODES};
ghost use Rattle.travel_times.specs.Times.{arrivals};
ghost use Rattle.walks.specs.Walks.{AreWithin};
ghost use Rattle.car_routes.specs.{Found.short, Found.ways_from, Found.ways_by, Found.part_ways, Found.AreTargets, Found.IsOn, Wanted.row_of};

use crate::found::{Found, Ways};
use crate::wanted::Targets;
use events::Route;
use limits::MAX_ROUTE_LINKS;
use rayon::prelude::*;
use router::{Adjacency, Search, way_by};
use std::alloc::{AllocError, Global};
use std::collections::VecDeque;
use std::thread::Threads;
use travel_times::LinkTimes;

/// How many nodes make a part. One thread takes a part at a time, and its searches share their memory.
const PART_NODES: usize = 32;

/// The links of a network lead from one of its nodes to another.
fn know_links(adjacency: &Adjacency)
    ensures inside { AreWithin adjacency.now.nodes adjacency.now.ends }
    ensures few { adjacency.now.nodes ≤ MAX_NODES }
{
    let _ = adjacency.nodes();
}

/// The way, where it is not too long for a leg, which has two links more.
fn if_short(way: Option<Route>) -> Option<Route>
    ensures { result ≡ short way }
{
    let Some(way) = way else {
        return None;
    };
    if way.len() <= MAX_ROUTE_LINKS - 2 {
        return Some(way);
    }
    None
}

/// The search from a node in second 0, in the memory of an earlier one where there is one.
fn search_from<'a>(
    alloc: Global,
    adjacency: &'a Adjacency,
    times: &'a LinkTimes,
    earlier: Option<Search<'a>>,
    from: u32,
) -> Result<Search<'a>, AllocError>
    requires from { from < adjacency.now.nodes }
    requires times { length times.now ≡ length adjacency.now.ends }
    requires earlier { IfSome earlier (IsOn adjacency.now times.now) }
    ensures { IfOk result (λ search. search ≡ record { graph = adjacency.now; times = times.now; from = from; second = 0 }) }
{
    match earlier {
        None => Search::new(alloc, adjacency, times, from, 0),
        Some(search) => search.again(from, 0),
    }
}

/// The ways from a node to these nodes, in their order, as far as they are not too long for a leg; and the search that found them.
fn ways_from<'a>(
    alloc: Global,
    adjacency: &'a Adjacency,
    times: &'a LinkTimes,
    earlier: Option<Search<'a>>,
    from: u32,
    targets: &[u32],
) -> Result<(Search<'a>, Ways), AllocError>
    requires from { from < adjacency.now.nodes }
    requires times { length times.now ≡ length adjacency.now.ends }
    requires targets { All (λ node. node < adjacency.now.nodes) targets.now }
    requires earlier { IfSome earlier (IsOn adjacency.now times.now) }
    ensures search { IfOk result (λ found. IsOn adjacency.now times.now found.0) }
    ensures ways { IfOk result (λ found. found.1 ≡ ways_from adjacency.now (arrivals times.now) from targets.now) }
{
    know_links(adjacency);
    let mut rows = VecDeque::new(alloc);
    let mut search = search_from(alloc, adjacency, times, earlier, from)?;
    for place in 0..targets.len() {
        let (next, way) = way_by(alloc, search, targets[place])?;
        rows.push_back(if_short(way))?;
        search = next;
    }
    Ok((search, Ways { rows }))
}

/// No route, where none is wanted.
fn no_ways(alloc: Global) -> Ways
    ensures { result ≡ [] }
{
    Ways {
        rows: VecDeque::new(alloc),
    }
}

/// The routes from a node to its targets, and the last search. Without a target nothing is searched.
fn own_ways<'a>(
    alloc: Global,
    adjacency: &'a Adjacency,
    times: &'a LinkTimes,
    earlier: Option<Search<'a>>,
    from: u32,
    targets: &[u32],
) -> Result<(Option<Search<'a>>, Ways), AllocError>
    requires from { from < adjacency.now.nodes }
    requires times { length times.now ≡ length adjacency.now.ends }
    requires targets { All (λ node. node < adjacency.now.nodes) targets.now }
    requires earlier { IfSome earlier (IsOn adjacency.now times.now) }
    ensures search { IfOk result (λ found. IfSome found.0 (IsOn adjacency.now times.now)) }
    ensures ways { IfOk result (λ found. found.1 ≡ ways_from adjacency.now (arrivals times.now) from targets.now) }
{
    if targets.is_empty() {
        return Ok((earlier, no_ways(alloc)));
    }
    let (search, ways) = ways_from(alloc, adjacency, times, earlier, from, targets)?;
    Ok((Some(search), ways))
}

/// The nodes to which routes are wanted from a node.
fn targets_of(targets: &Targets, node: usize) -> &[u32]
    requires { node < length targets.now }
    ensures { result.now ≡ row_of targets.now node }
{
    &targets.rows[node].rows
}

/// The routes from the node of this number to its targets, and the last search.
fn ways_of<'a>(
    alloc: Global,
    adjacency: &'a Adjacency,
    times: &'a LinkTimes,
    earlier: Option<Search<'a>>,
    targets: &Targets,
    node: usize,
) -> Result<(Option<Search<'a>>, Ways), AllocError>
    requires all { AreTargets adjacency.now times.now targets.now }
    requires node { node < length targets.now }
    requires earlier { IfSome earlier (IsOn adjacency.now times.now) }
    ensures search { IfOk result (λ found. IfSome found.0 (IsOn adjacency.now times.now)) }
    ensures ways { IfOk result (λ found. found.1
        ≡ ways_from adjacency.now (arrivals times.now) node (row_of targets.now node)) }
{
    know_links(adjacency);
    let own = targets_of(targets, node);
    let (search, ways) = own_ways(alloc, adjacency, times, earlier, node as u32, own)?;
    Ok((search, ways))
}

/// The routes from the nodes of a part to their targets, node by node. The searches share their memory.
fn ways_of_part(
    alloc: Global,
    adjacency: &Adjacency,
    times: &LinkTimes,
    targets: &Targets,
    part: usize,
) -> Result<Found, AllocError>
    requires all { AreTargets adjacency.now times.now targets.now }
    requires part { part * PART_NODES < length targets.now }
    ensures { IfOk result (λ found. found ≡ part_ways adjacency.now (arrivals times.now) targets.now part) }
{
    know_links(adjacency);
    let first = part * PART_NODES;
    let last = (first + PART_NODES).min(targets.len());
    let mut rows = Vec::new(alloc);
    let mut search = None;
    for node in first..last {
        let (next, ways) = ways_of(alloc, adjacency, times, search, targets, node)?;
        rows.push(ways)?;
        search = next;
    }
    Ok(Found { rows })
}

/// The routes from each node to its targets, part by part.
fn ways_by_part<R: Threads + Sync>(
    rt: &R,
    alloc: Global,
    adjacency: &Adjacency,
    times: &LinkTimes,
    targets: &Targets,
) -> Result<Vec<Found>, AllocError>
    requires { AreTargets adjacency.now times.now targets.now }
    ensures { IfOk result (λ found. found.items ≡ map (part_ways adjacency.now (arrivals times.now) targets.now)
        (range_with_len 0 (div_ceil (length targets.now) PART_NODES))) }
{
    let found: Result<Vec<Found>, AllocError> = (0..targets.len().div_ceil(PART_NODES))
        .into_par_iter()
        .map(
            |part: usize| -> Result<Found, AllocError>
                requires { AreTargets adjacency.now times.now targets.now × (part * PART_NODES < length targets.now) }
                ensures { IfOk result (λ found. found
                    ≡ part_ways adjacency.entry.now (arrivals times.entry.now) targets.entry.now part) }
            { ways_of_part(alloc, adjacency, times, targets, part) },
        )
        .collect(rt, alloc)?;
    found
}

/// The routes of all parts, one part after the other.
fn joined(alloc: Global, parts: Vec<Found>) -> Result<Vec<Ways>, AllocError>
    ensures { IfOk result (λ all. all.items ≡ flat_map (λ part. part) parts.items) }
{
    let mut all = Vec::new(alloc);
    for part in parts {
        let mut rows = part.rows;
        all.append(&mut rows)?;
    }
    Ok(all)
}

/// The routes from each node to its targets, node by node.
fn ways_by_node<R: Threads + Sync>(
    rt: &R,
    alloc: Global,
    adjacency: &Adjacency,
    times: &LinkTimes,
    targets: &Targets,
) -> Result<Vec<Ways>, AllocError>
    requires { AreTargets adjacency.now times.now targets.now }
    ensures { IfOk result (λ found. found.items ≡ ways_by adjacency.now (arrivals times.now) targets.now 0 (length targets.now)) }
{
    let parts = ways_by_part(rt, alloc, adjacency, times, targets)?;
    let found = joined(alloc, parts)?;
    Ok(found)
}

/// The routes from each node to its targets.
pub fn all_ways<R: Threads + Sync>(
    rt: &R,
    alloc: Global,
    adjacency: &Adjacency,
    times: &LinkTimes,
    targets: &Targets,
) -> Result<Found, AllocError>
    requires { AreTargets adjacency.now times.now targets.now }
    ensures count { IfOk result (λ found. length found ≡ adjacency.now.nodes) }
    ensures ways { IfOk result (λ found. (node : ℕ) → row_of found node
        ≡ ways_from adjacency.now (arrivals times.now) node (row_of targets.now node)) }
{
    let rows = ways_by_node(rt, alloc, adjacency, times, targets)?;
    Ok(Found { rows })
}
