//! A day of a town in partitions that gives its events while it runs, on one thread: its partitions do a second each, in rounds, and what
//! they told of it is merged and given away at once, so that the events of a day are never kept together.
#![tactic(auto)]

mod day;
mod pieces;
mod telling;

pub use day::StreamedDay;
pub use pieces::ends_of;
pub use telling::told_of;
