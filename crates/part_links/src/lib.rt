//! Links of a network, all or those of a part, in the phase of a second in which they move: only those have a turn that are woken, and all
//! of them then stand as `traffic` says.
#![tactic(auto)]

mod link_turns;
mod phases;

pub use link_turns::{LinkPhase, Told};
pub use phases::move_links;
