//! Travel times of links, by the quarter of an hour in which a link is entered: at free speed, or as the events of a day show them.
//!
//! Times are in seconds. The rules are those of the travel times and routes of MATSim (Horni, Nagel and Axhausen (ed.), The
//! Multi-Agent Transport Simulation MATSim, 2016), in whole numbers; docs/PROFILE.md states them.
#![tactic(auto)]

mod asked;
mod laws;
mod link_times;
mod observations;
mod profiles;
mod seen;
mod tallies;

pub use asked::{are_in_order, are_on_links};
pub use laws::{
    free_links_take_alike, links_are_first_in_first_out, worked_arrivals, worked_observations,
};
pub use link_times::LinkTimes;
pub use observations::Observations;

/// The seconds of a bin, a quarter of an hour.
pub const BIN_SECONDS: u64 = 900;
