//! Checkpoints of a run in a database: a keeper over a connection of `sqlite`, in memory or in a file.
//!
//! One statement replaces the one row of the one table, outside any transaction, so that a crash leaves the old iteration or the new one,
//! whole.
#![tactic(auto)]

mod keeper;
mod packing;
mod statements;

pub use keeper::{Fault, SqlKeeper, Tells};
pub use packing::{pack, unpack};
