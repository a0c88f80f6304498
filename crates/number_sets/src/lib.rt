//! Sets of small numbers, of which the least one from some number on is found at once.
#![tactic(auto)]

mod number_set;

pub use number_set::NumberSet;

/// A set has room for the numbers below this.
pub(crate) const CAPACITY: u32 = 64;
