//! The words of the command line: the command that they ask for, or what the user is told instead.
//!
//! The second word names the command. The words behind it are read by the crate `clap`, as those of a
//! simple command: each command has a row of its own in `commands`, and is no subcommand of another.
#![tactic(auto)]

mod commands;
mod given;
mod reading;
mod usage;

pub use commands::Command;
pub use reading::{Asked, read_words};

/// The number of the last iteration of a generated grid, where none is given.
pub const DEFAULT_LAST_ITERATION: u32 = 1;

/// Among how many partitions the network is divided, where nothing else is given.
pub const DEFAULT_PARTITIONS: u32 = 1;

/// How many workers compute the partitions, where nothing else is given.
pub const DEFAULT_WORKERS: u32 = 1;
