//! What is taken of the events of a day while it runs, so that they need not be kept: what they are worth to each person, what they show of
//! travel times, and how many they are.
#![tactic(auto)]

mod counts;
mod handling;

pub use counts::EventCounts;
pub use handling::{EventHandler, SeenDay};
