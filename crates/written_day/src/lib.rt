//! The day of a town on its way to events.csv: its events are written and handled as they come, while it runs or when it is over. The same
//! bytes are written either way.
#![tactic(auto)]

mod execution;
mod writing;

pub use execution::Execution;
pub use writing::write_day;
