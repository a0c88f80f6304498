use schedule::{Departures, Routes, Stops};

/// The stops, the routes and the departures of a scenario.
#[derive(Drop)]
pub struct Schedule {
    pub stops: Stops,
    pub routes: Routes,
    pub departures: Departures,
}
