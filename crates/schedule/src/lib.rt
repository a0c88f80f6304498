//! The transit schedule: stops, routes of lines, departures, and the files stops.csv, routes.csv and departures.csv.
#![tactic(auto)]

mod calls;
mod departures;
mod route_lists;
mod routes;
mod stops;

pub use departures::read_departures;
pub use routes::read_routes;
pub use rows::{
    DepartureList, DepartureRow, Departures, RouteList, RouteRow, Routes, StopList, StopRow, Stops,
};
pub use stops::read_stops;
