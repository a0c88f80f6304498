//! A link by itself: its queue, its buffer, its wait list and its bay as deques, and what a second does on them, exactly as the
//! turns of `traffic` say it. Vehicles are moved and never copied. A link that had nothing to do for some seconds makes up what it
//! gained in them when it is next needed.
#![tactic(auto)]

mod accesses;
mod begins;
mod fates;
mod laws;
mod numbers;
mod sleeps;
mod state;
mod turns;

pub use laws::turns_are_the_second;
pub use numbers::{LinkNumbers, numbers_of};
pub use state::LinkState;
pub use turns::Turn;
