//! Days whose partitions are asked for their steps in an order, whichever it is: they are the day of the undivided town. Its tests are of
//! towns whose nodes have a partition each; tests alone stand on it.
#![tactic(auto)]

#[cfg(test)]
mod files;
mod first_second;
mod orders;
#[cfg(test)]
mod sending;
#[cfg(test)]
mod steps;
#[cfg(test)]
mod towns;

pub use first_second::sends_at_first;
pub use orders::{in_order, one_alone, steps_alone};
