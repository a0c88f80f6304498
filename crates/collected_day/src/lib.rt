//! A day of a town in partitions on several threads that is written while it runs. The partitions run span by span, a span of seconds at a
//! time, and send what they told in it over a ring each. While they run the next span, one more thread takes what came over the rings: it
//! merges the events of all partitions, makes their lines, and takes what scores and travel times need. Behind both the caller writes the
//! lines, and nobody computes meanwhile; so the lines of a span are written before any partition begins the one behind the next.
//!
//! The events of two spans stand in memory and no more: of the one that runs, and of the one before it, twice while they are merged, and
//! then beside their lines. A ring has a place for each span of the day, so no piece is ever refused. Where a write fails, nothing more is
//! computed.
#![tactic(auto)]

mod day;
mod gathering;
mod jobs;
mod partitions;
mod sending;
mod spans;
mod stream;
mod taking;

pub use day::stream_collected;
pub use spans::SPAN_SECONDS;
pub use streamed_day::StreamedDay;
pub use workers::Crew;
