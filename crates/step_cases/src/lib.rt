//! What tests of partitions that step stand on: gates that hold and watch them, orders in which they are asked for their steps, and a
//! bundle of one. No contract of the program speaks of it.
#![tactic(auto)]

mod bundles;
mod gates;
mod orders;

pub use bundles::alone;
pub use gates::{Ahead, InTurn, Meeting};
pub use orders::{ORDERS, Order, bring_to_end, steps_of};
