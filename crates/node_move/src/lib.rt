//! A node by itself: in a second it lets the links into it hand their vehicles over, in the order that is drawn, to links that have room
//! or where they are stuck, in place and exactly as `traffic` says it.
#![tactic(auto)]

mod alone;
mod candidates;
mod crossings;
mod drawings;
mod space;
mod spaces;
mod starts;
mod turns;

pub use alone::move_alone;
pub use crossings::{Crossings, Entering};
pub use space::Space;
pub use turns::{NodeTurn, move_node};

/// How many links that follow one another by number have their entries side by side.
pub(crate) const BLOCK_LINKS: usize = 16;
