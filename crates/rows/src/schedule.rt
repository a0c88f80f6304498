ghost use Rattle.std.specs.{List.list_any, Prelude.◌≡◌, Prelude.length};
ghost use Rattle.rows.specs.Stops.{calls_at, stop_link};

use events::{Calls, Names, Route, Rows, StopCall};

/// A stop, by the link on which it lies.
#[derive(Clone, Copy, Debug, PartialEq, Eq)]
pub struct StopRow {
    pub link: u32,
}

/// A route of a line, over links and with calls at stops.
#[derive(Drop)]
pub struct RouteRow {
    pub line: u32,
    pub links: Route,
    pub calls: Calls,
}

/// A departure of a vehicle on a route, at a second and with so many seats.
#[derive(Clone, Copy, Debug, PartialEq, Eq)]
pub struct DepartureRow {
    pub route: u32,
    pub second: u32,
    pub seats: u32,
}

/// Stops, by their numbers.
pub type StopList = Rows<StopRow>;

/// Routes, by their numbers.
pub type RouteList = Rows<RouteRow>;

/// Departures, by their numbers.
pub type DepartureList = Rows<DepartureRow>;

/// The link of a stop, which is 0 where there is no such stop.
pub fn stop_link(stops: &[StopRow], stop: u32) -> u32
    ensures { result ≡ stop_link stops.now stop }
{
    match stops.get(stop as usize) {
        Some(row) => row.link,
        None => 0,
    }
}

/// Whether one of the calls is at the stop.
pub fn calls_at(stop: u32, calls: &[StopCall]) -> bool
    ensures { result ≡ calls_at stop calls.now }
{
    calls.iter().any(|call| call.stop == stop)
}

/// Stops, with a name each.
#[derive(Drop)]
pub struct Stops {
    pub names: Names,
    pub rows: StopList,
    pub ghost each: { length names ≡ length rows },
}

/// Routes, with a name each, and the names of their lines.
#[derive(Drop)]
pub struct Routes {
    pub lines: Names,
    pub names: Names,
    pub rows: RouteList,
    pub ghost each: { length names ≡ length rows },
}

/// Departures, with a name each.
#[derive(Drop)]
pub struct Departures {
    pub names: Names,
    pub rows: DepartureList,
    pub ghost each: { length names ≡ length rows },
}
