//! Signals: the file signals.csv, and whether two signals are ever green together.
#![tactic(auto)]

mod arcs;
mod clashes;
mod conflict;
mod kinds;
mod lists;
mod reading;
mod signal_rows;
mod signals_read;
mod spans;

pub use clashes::{clash, first_clash};
pub use conflict::{Conflict, ConflictList};
pub use lists::Signals;
pub use reading::read_signals;
