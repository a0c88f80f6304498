//! Partitions on threads, without a lock: each thread has some of them, gives each a turn, and lets it do its next second as soon as all
//! its neighbours are far enough. What they send to one another goes over the board of `cells`; what a partition is, is known by the trait
//! `Part` of `step_core` alone.
//!
//! This is conservative parallel simulation with lookahead: nothing is ever taken back, and no partition waits for more than its
//! neighbours.
#![tactic(auto)]

mod bundles;
mod days;
mod members;
mod moving;
mod pairs;
mod seconds;
mod sharing;

pub use bundles::run_bundle;
pub use days::{Crew, Running, run_day};
pub use members::{Bundle, Member, ParcelsOf, new_board};
