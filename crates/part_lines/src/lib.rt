//! The lines of the stops of a part: who waits at a stop from this second on comes to its line, so that each line has those who wait at
//! its stop, in turn.
#![tactic(auto)]

mod coming;
mod lines;

pub use lines::join_lines;
