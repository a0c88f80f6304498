//! The turns of departures.

ghost use Rattle.std.specs.Prelude.{◌≡◌, ◌<◌, ◌∷◌, [], ℕ, List, length, get_or, IfOk};
ghost use Rattle.rows.specs.declared.schedule.DepartureRow.{DepartureRow};
ghost use Rattle.town.specs.{Setups.on_route, Setups.departure_of, Setups.route_at, Views.setup};
ghost use Rattle.traffic.specs.Persons.{transit_vehicle, departure_moves};

use events::VehicleId;
use rows::{DepartureList, DepartureRow, RouteList, RouteRow};
use std::alloc::{AllocError, Global};
use town::DayInput;
use traffic::{Move, Riders, Row, Stage, Vehicle};

/// The empty vehicle of a departure on a route, at the end of the wait list of the route's first link.
fn transit_vehicle(
    alloc: Global,
    d: u32,
    row: DepartureRow,
    route: &RouteRow,
) -> Result<Row, AllocError>
    requires { 0 < length route.now.links }
    ensures { IfOk result (λ vehicle. vehicle ≡ transit_vehicle d (on_route route.now row)) }
{
    let link = route.links.rows[0];
    let links = route.links.try_clone()?;
    let calls = route.calls.try_clone()?;
    let vehicle = Vehicle {
        id: VehicleId::Transit(d),
        route: links,
        place: 0,
        started: false,
        riders: Riders {
            rows: Vec::new(alloc),
        },
        line: route.line,
        calls,
        served: 0,
        departed: row.second,
        seats: row.seats,
        pushed: false,
    };
    Ok(Row {
        vehicle,
        link,
        stage: Stage::Wait,
        second: 0,
    })
}

/// The same by the routes of the town.
fn vehicle_of(
    alloc: Global,
    d: u32,
    row: DepartureRow,
    routes: &RouteList,
) -> Result<Row, AllocError>
    requires there { row.route < length routes.now }
    requires long { 0 < length (route_at routes.now row.route).links }
    ensures { IfOk result (λ vehicle. vehicle ≡ transit_vehicle d (departure_of routes.now row)) }
{
    let route = &routes.rows[row.route as usize];
    let vehicle = transit_vehicle(alloc, d, row, route)?;
    Ok(vehicle)
}

/// The row of a departure.
fn row_at(departures: &DepartureList, d: u32) -> DepartureRow
    requires { d < length departures.now }
    ensures { result ≡ get_or departures.now d result }
{
    departures.rows[d as usize]
}

/// The moves of a departure in this second. In any other than its own nothing is allocated.
///
/// # Errors
///
/// `AllocError`: there is no memory for the vehicle.
pub fn departure_moves(
    alloc: Global,
    day: &DayInput,
    second: u32,
    d: u32,
) -> Result<Vec<Move>, AllocError>
    requires { d < length day.now.town.now.departures.rows }
    ensures { IfOk result (λ moves. moves.items ≡ departure_moves (setup day.now) second d) }
{
    let row = row_at(&day.town.departures.rows, d);
    if row.second != second {
        return Ok(Vec::new(alloc));
    }
    let now = vehicle_of(alloc, d, row, &day.town.routes.rows)?;
    let mut moves = Vec::new(alloc);
    moves.push(Move::Enter { now })?;
    Ok(moves)
}
