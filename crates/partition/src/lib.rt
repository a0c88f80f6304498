//! How a network is divided into partitions, which of them are neighbours, and with which lags.
#![tactic(auto)]

mod axes;
mod belonging;
mod borders;
mod crossings;
mod cutting;
mod halving;
mod joining;
mod owner;

pub use axes::Axis;
pub use belonging::owner_of_link;
pub use borders::{LagPair, lags};
pub use halving::halve;
pub use joining::{Pair, neighbours};
pub use owner::{Owner, OwnerList, owner_of_node};
