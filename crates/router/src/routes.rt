ghost use Rattle.std.specs.Prelude.{◌≡◌, ◌<◌, ◌≤◌, ◌^◌, ◌∷◌, ◌++◌, [], length, IfOk, IfSome};
ghost use Rattle.limits.specs.declared.TheConstants.{MAX_ROUTE_LINKS};
ghost use Rattle.travel_times.specs.Times.{arrivals};
ghost use Rattle.walks.specs.Walks.{end_of, AreWithin};
ghost use Rattle.router.specs.Routes.{way_to, leg_route, allowed};

use crate::adjacency::Adjacency;
use crate::search::Search;
use events::Route;
use limits::MAX_ROUTE_LINKS;
use std::alloc::{AllocError, Global};
use travel_times::LinkTimes;

/// The route over one link.
pub fn one_link(alloc: Global, link: u32) -> Result<Route, AllocError>
    ensures { IfOk result (λ route. route ≡ link ∷ []) }
{
    let mut rows = Vec::new(alloc);
    rows.push(link)?;
    Ok(Route { rows })
}

/// The route from one link to another along those between them.
fn joined(alloc: Global, here: u32, way: &Route, there: u32) -> Result<Route, AllocError>
    ensures { IfOk result (λ route. route ≡ here ∷ way.now ++ there ∷ []) }
{
    let mut rows = Vec::new(alloc);
    rows.push(here)?;
    rows.extend_from_slice(&way.rows)?;
    rows.push(there)?;
    Ok(Route { rows })
}

/// The route from one link to another along those between them, where it has no more links than a leg may have.
pub fn route_along(
    alloc: Global,
    here: u32,
    way: &Route,
    there: u32,
) -> Result<Option<Route>, AllocError>
    ensures route { IfOk result (λ route. route ≡ allowed (Some (here ∷ way.now ++ there ∷ []))) }
    ensures short { IfOk result (λ found. IfSome found (λ route. length route ≤ MAX_ROUTE_LINKS)) }
{
    let route = joined(alloc, here, way, there)?;
    Ok(if_allowed(route))
}

/// The chosen route to a node, or none where no walk leads there; and the search, which has gone on.
#[tactic(auto, using(crate::proofs::LegWays::no_way, crate::proofs::LegWays::least_way))]
pub fn way_by<'a>(
    alloc: Global,
    search: Search<'a>,
    to: u32,
) -> Result<(Search<'a>, Option<Route>), AllocError>
    requires to { to < search.graph.nodes }
    requires from { search.from < search.graph.nodes }
    requires inside { AreWithin search.graph.nodes search.graph.ends }
    ensures same { IfOk result (λ found. found.0 ≡ search.entry) }
    ensures way { IfOk result (λ found. found.1
        ≡ way_to search.entry.graph (arrivals search.entry.times) search.entry.from search.entry.second to) }
{
    let (search, way) = search.way_to(alloc, to)?;
    match way {
        Some(way) => Ok((search, Some(way.links))),
        None => Ok((search, None)),
    }
}

/// The links of a network lead from one of its nodes to another.
fn know_links(adjacency: &Adjacency)
    ensures { AreWithin adjacency.now.nodes adjacency.now.ends }
{
    let _ = adjacency.nodes();
}

/// The chosen route from the end of a link, left in a second, to a node; or none where no walk leads there.
fn way_to<'a>(
    alloc: Global,
    adjacency: &'a Adjacency,
    times: &'a LinkTimes,
    second: u32,
    here: u32,
    to: u32,
) -> Result<Option<Route>, AllocError>
    requires here { here < length adjacency.now.ends }
    requires to { to < adjacency.now.nodes }
    requires times { length times.now ≡ length adjacency.now.ends }
    ensures { IfOk result (λ way. way ≡ way_to adjacency.now (arrivals times.now) (end_of adjacency.now.ends here) second to) }
{
    know_links(adjacency);
    let from = adjacency.end(here);
    let search = Search::new(alloc, adjacency, times, from, u64::from(second))?;
    let (_, way) = way_by(alloc, search, to)?;
    Ok(way)
}

/// The route of a car leg from one link, left in a second, to another: of least arrival, as the travel times of links say. A leg to the
/// link on which it begins has this link alone. There is none exactly where no walk joins the links, or where the route would have more
/// than `MAX_ROUTE_LINKS` links, its first and its last one counted.
pub fn leg_route(
    alloc: Global,
    adjacency: &Adjacency,
    times: &LinkTimes,
    second: u32,
    here: u32,
    there: u32,
) -> Result<Option<Route>, AllocError>
    requires here { here < length adjacency.now.ends }
    requires there { there < length adjacency.now.ends }
    requires times { length times.now ≡ length adjacency.now.ends }
    ensures route { IfOk result (λ route. route ≡ allowed (leg_route adjacency.now (arrivals times.now) second here there)) }
    ensures short { IfOk result (λ found. IfSome found (λ route. length route ≤ MAX_ROUTE_LINKS)) }
{
    if here == there {
        let route = one_link(alloc, here)?;
        return Ok(Some(route));
    }
    let node = adjacency.start(there);
    let Some(way) = way_to(alloc, adjacency, times, second, here, node)? else {
        return Ok(None);
    };
    let route = route_along(alloc, here, &way, there)?;
    Ok(route)
}

/// The route, where it has no more links than a leg may have.
fn if_allowed(route: Route) -> Option<Route>
    ensures route { result ≡ allowed (Some route) }
    ensures short { IfSome result (λ route. length route ≤ MAX_ROUTE_LINKS) }
{
    if route.len() <= MAX_ROUTE_LINKS {
        Some(route)
    } else {
        None
    }
}
