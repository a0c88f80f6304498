//! The lists of events that the partitions of a network told, merged into the list of the day.
#![tactic(auto)]

mod merging;

pub use merging::merge;
