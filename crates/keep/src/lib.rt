//! Checkpoints: what the persons of a run remember, as rows that a keeper keeps, and back; and a keeper in memory.
//!
//! A row is kept for each plan, with its lines in the layout of plans.csv, so that what is kept speaks by names and can be read in any
//! run of the same scenario. Rows of another scenario are refused, with the place at which it shows.
#![tactic(auto)]

mod keeping;
mod laws;
mod memory_keeper;
mod progress;
mod reading;
mod steps;

pub use keeping::rows_of;
pub use laws::{rows_fit_or_are_foreign, worked_rows};
pub use memory_keeper::MemoryKeeper;
pub use reading::{KeptError, memories_of};
