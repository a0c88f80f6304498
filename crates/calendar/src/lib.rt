//! Numbers by the second in which they are due, so that in each second only those are looked at that have something to do.
#![tactic(auto)]

mod blocks;
mod by_second;
mod hooks;
mod seconds;
mod short_option;
mod wake_ups;
mod waking;

pub use by_second::Calendar;
pub use wake_ups::Wakes;
pub use waking::within;

/// How many seconds stand in a block.
pub(crate) const BLOCK_SECONDS: usize = 32;
