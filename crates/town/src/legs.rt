ghost use Rattle.std.specs.{List.list_any, Prelude.◌≡◌, Prelude.◌<◌, Prelude.length, Prelude.get_or};
ghost use Rattle.rows.specs.Joined.{is_joined, ends_of};
ghost use Rattle.town.specs.Fits.{has_wrong_ends, are_joining, is_joining, has_wrong_stops};

use events::StopCall;
use rows::{LinkRow, RouteRow, StopRow, calls_at};

/// Whether a car route, which has a link, does not begin on the link of the activity before it, or
/// does not end on that of the one after it.
#[tactic(auto, unfolding(crate::specs::Fits::has_wrong_ends))]
pub fn wrong_ends(here: u32, there: u32, route: &[u32]) -> bool
    requires { 0 < length route.now }
    ensures { result ≡ has_wrong_ends here there route.now }
{
    !(route[0] == here && route[route.len() - 1] == there)
}

/// Whether one of the calls is at the stop of access and a later one at that of egress.
#[tactic(auto, unfolding(crate::specs::Fits::are_joining))]
fn are_joining(access: u32, egress: u32, calls: &[StopCall]) -> bool
    ensures { result ≡ are_joining access egress calls.now }
{
    let mut rest = calls;
    while let [call, later @ ..] = rest {
        if call.stop == access && calls_at(egress, later) {
            return true;
        }
        rest = later;
    }
    false
}

fn is_joining(line: u32, access: u32, egress: u32, route: &RouteRow) -> bool
    ensures { result ≡ is_joining line access egress route.now }
{
    route.line == line && are_joining(access, egress, &route.calls.rows)
}

fn is_any_joining(line: u32, access: u32, egress: u32, routes: &[RouteRow]) -> bool
    ensures { result ≡ list_any (is_joining line access egress) routes.now }
{
    routes
        .iter()
        .any(|route| is_joining(line, access, egress, route))
}

/// Whether the stop of access of a transit leg is not on the link of the activity before it, or that of egress not on the link of
/// the one after it, or no route of the line calls at the one and later at the other.
#[tactic(auto, unfolding(crate::specs::Fits::has_wrong_stops))]
pub fn wrong_stops(
    stops: &[StopRow],
    routes: &[RouteRow],
    here: u32,
    there: u32,
    line: u32,
    access: u32,
    egress: u32,
) -> bool
    requires access { access < length stops.now }
    requires egress { egress < length stops.now }
    ensures { result ≡ has_wrong_stops stops.now routes.now here there line access egress }
{
    !(stops[access as usize].link == here
        && stops[egress as usize].link == there
        && is_any_joining(line, access, egress, routes))
}

/// Where a link begins and where it ends.
#[tactic(auto, unfolding(rows::specs::Joined::ends_of))]
fn ends_of(links: &[LinkRow], link: u32) -> (u32, u32)
    ensures { result ≡ get_or (ends_of links.now) link (0, 0) }
{
    let place = link as usize;
    if place < links.len() {
        return (links[place].from, links[place].to);
    }
    (0, 0)
}

/// Whether each link of a route begins where the one before it ends.
#[tactic(auto, unfolding(rows::specs::Joined::is_joined))]
pub fn is_joined(links: &[LinkRow], route: &[u32]) -> bool
    ensures { result ≡ is_joined (ends_of links.now) route.now }
{
    let [first, after @ ..] = route else {
        return true;
    };
    let mut link = *first;
    let mut rest = after;
    while let [next, after @ ..] = rest {
        if ends_of(links, link).1 != ends_of(links, *next).0 {
            return false;
        }
        link = *next;
        rest = after;
    }
    true
}
