//! A run of several days: on each, every person follows the plan that he has chosen; the day is worth something to him; and before the next
//! one he may replan by what he has seen.
//!
//! The iterations are those of MATSim's loop (Horni, Nagel and Axhausen (ed.), The Multi-Agent Transport Simulation MATSim, 2016, chapter
//! "Introducing MATSim"); docs/PROFILE.md states the rules. The events of a day are written as they come, what else an iteration
//! writes when it is over, and nothing of it but the memories and what was seen of travel times is handed on to the next one.
#![tactic(auto)]

mod days;
mod ends;
mod iterating;
mod laws;
mod performing;
mod run;
mod saving;
mod seeing;
mod texts;

pub use iterating::iterate;
pub use laws::{
    memories_stay_in_their_town, runs_go_on_from_what_is_kept, runs_resume_where_they_were_stopped,
};
pub use run::RunInput;
pub use written_day::Execution;
