//! The reference day, slow and runnable: each turn as its moves, done one after the other, exactly as the definitions of `traffic` say it.
#![tactic(auto)]

mod days;
mod ends;
mod links;
mod phases;
mod turns;
mod views;
mod waiters;

pub use days::{fit_second, plain_day, plain_second};
pub use ends::stranded;
pub use turns::{idle_credit, link_turn, node_turn};
