//! What a person remembers from day to day: plans with their scores, of which one is chosen.
//!
//! The rules are those of MATSim's replanning (Horni, Nagel and Axhausen (ed.), The Multi-Agent Transport Simulation MATSim, 2016), with
//! halved weights in the place of exponentials; docs/PROFILE.md states them.
#![tactic(auto)]

mod choices;
mod laws;
mod memory;
mod scores;

pub use choices::Choice;
pub use laws::{worked_scores, worst_and_best_plans_are_there};
pub use memory::{Memory, MemoryList};
pub use scores::{ScoreList, worst};

/// The most plans that a memory holds: as many as a file has of a person, and a new one.
pub const MAX_HELD: usize = 6;
