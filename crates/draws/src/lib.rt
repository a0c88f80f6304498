//! Random words by place, and what they choose.
//!
//! A word depends on the seed, the iteration, the stream and its place in the stream alone, so
//! words may be asked for in any order, by any number of threads, and each is the same.
#![tactic(auto)]

mod choices;
mod streams;
#[cfg(test)]
mod tests;

pub use choices::{between, pick};
pub use streams::Draws;

/// The stream of person 0; those below are the streams of nodes.
pub const PERSON_STREAMS: u64 = 1 << 40;

/// How many words a stream has here.
pub const PLACES: u64 = 1 << 32;
