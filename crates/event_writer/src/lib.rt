//! The events of a day are written while it runs: piece by piece, as they come from whoever simulates it, and none of them is kept.
#![tactic(auto)]

mod listed;
mod source;
mod writing;

pub use listed::ListedEvents;
pub use source::EventSource;
pub use writing::{StreamError, stream_events, stream_piece, take_piece, write_text};
