ghost use Rattle.std.specs.Prelude.{◌≡◌, ◌<◌, ◌≤◌, ◌^◌, length, option_map, IfOk};
ghost use Rattle.rows.specs.Joined.{ends_of};
ghost use Rattle.travel_times.specs.Times.{arrivals};
ghost use Rattle.walks.specs.Certificates.{IsCertificate};
ghost use Rattle.router.specs.Ways.{least_of, query_on, IsLeastWay};
ghost use Rattle.route_report.specs.Report.{map_of, search_on, route_lines, text_of, route_text};

use crate::lines::route_lines;
use route_check::check;
use router::{Found, RouteError, least};
use rows::Network;
use std::alloc::{AllocError, Global};
use travel_times::LinkTimes;

/// The lines of a route that was found. Its labels are checked before they are told, by the checker that anyone may run on them.
fn checked_lines(
    alloc: Global,
    network: &Network,
    times: &LinkTimes,
    from: u32,
    to: u32,
    second: u64,
    found: &Found,
) -> Result<Vec<u8>, AllocError>
    requires from { from < length network.now.nodes }
    requires to { to < length network.now.nodes }
    requires times { length times.now ≡ length network.now.links }
    requires way { IsLeastWay (query_on network.now times.now from second) to found.now.links found.now.arrival }
    requires labels { found.now.labels ≡ least_of (query_on network.now times.now from second) }
    requires certificate { IsCertificate (length network.now.nodes) (ends_of network.now.links) (arrivals times.now) from second
        found.now.labels }
    ensures { IfOk result (λ text. text.items ≡ route_lines (map_of network.now) found.now.links found.now.arrival found.now.labels) }
{
    if !check(
        network,
        times,
        from,
        second,
        to,
        found.arrival,
        &found.labels.rows,
    ) {
        unreachable!()
    }
    route_lines(alloc, network, found)
}

/// The report of the route from a node to another, left in a second; none exactly where no walk joins them.
fn text_between(
    alloc: Global,
    network: &Network,
    from: u32,
    to: u32,
    second: u64,
) -> Result<Option<Vec<u8>>, AllocError>
    requires from { from < length network.now.nodes }
    requires to { to < length network.now.nodes }
    requires second { second < 2 ^ 32 }
    ensures { IfOk result (λ text. option_map (λ lines. lines.items) text
        ≡ text_of (map_of network.now) (search_on (map_of network.now) from second) to) }
{
    let times = LinkTimes::free(alloc, network)?;
    match least(alloc, network, &times, from, to, second) {
        Ok(found) => {
            let lines = checked_lines(alloc, network, &times, from, to, second, &found)?;
            Ok(Some(lines))
        }
        Err(RouteError::NoRoute) => Ok(None),
        Err(RouteError::NoMemory) => Err(AllocError),
    }
}

/// The report of the route of least arrival from the node of one name to that of another, left in this second, at the links' free speed.
/// None exactly where no walk joins two nodes of these names; so also where a name is no node's.
#[tactic(auto, unfolding(crate::specs::Report::route_text))]
pub fn route_text(
    alloc: Global,
    network: &Network,
    from: &[u8],
    to: &[u8],
    second: u32,
) -> Result<Option<Vec<u8>>, AllocError>
    ensures { IfOk result (λ text. option_map (λ lines. lines.items) text ≡ route_text (map_of network.now) from.now to.now second) }
{
    let Some(start) = network.node_names.find(from) else {
        return Ok(None);
    };
    let Some(end) = network.node_names.find(to) else {
        return Ok(None);
    };
    text_between(alloc, network, start, end, u64::from(second))
}
