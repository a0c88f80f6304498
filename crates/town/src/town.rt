ghost use Rattle.town.specs.Rows.{IsTown, IsBook, town_rows};

use events::Book;
use rows::{Departures, GreenList, Network, Routes, Stops, TrafficSettings};

/// A town: its settings, its network, its schedule and its signals, and the names of all that events tell of.
///
/// Every number in it names a row that is there, each link has a signal, and all is within the limits
/// (`limits`): its settings, and at most `MAX_PERSONS` persons.
#[derive(Drop)]
pub struct Town {
    /// Where all random words begin.
    pub seed: u64,
    /// The settings of its traffic.
    pub settings: TrafficSettings,
    pub network: Network,
    pub stops: Stops,
    pub routes: Routes,
    pub departures: Departures,
    pub book: Book,
    pub greens: GreenList,
    pub ghost sound: { IsTown (town_rows seed settings network stops routes departures book greens) },
    pub ghost named: { IsBook book network stops routes departures },
}
