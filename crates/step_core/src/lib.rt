//! The core: it steps the partitions of a run on one thread, each by its own seconds, in any order that the lags allow, and hands what they
//! send to one another over. What a partition is, is known to it by a small contract alone.
#![tactic(auto)]

mod borders;
mod cores;
mod hearing;
mod laws;
mod part;
mod rounds;
mod starting;
mod steps;
mod wheel;

pub use borders::place_of;
pub use cores::{Core, Step};
pub use laws::orders_end;
pub use part::{Border, BorderList, Part};
pub use starting::all_borders;
