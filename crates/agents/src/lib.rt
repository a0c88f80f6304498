//! Whose activity or teleported leg ends in which second, so that in each second only those are looked at who have something to do.
#![tactic(auto)]

mod agents_due;
mod phases;

pub use agents_due::Agents;
pub use phases::PersonList;
