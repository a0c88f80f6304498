//! A scenario out of its files: the town, what each person remembers at first, and what a run goes by, or the first fault of the files.
#![tactic(auto)]

mod assembling;
mod faults;
mod files;
mod files_read;
mod legs;
mod memories;
mod network_read;
mod numbering;
mod planned;
mod reading;
mod renumbering;
mod scenario;
mod schedule_read;
mod schedules;

pub use assembling::assemble;
pub use faults::{ScenarioFault, Stop};
pub use files::Files;
pub use scenario::Scenario;
