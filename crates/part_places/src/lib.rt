//! The places of the links that begin in a part of a network, or in the whole of it, as vehicles leave them: a place that a vehicle leaves
//! stays taken while a hole travels back along the link, and only the links are looked at on which a place comes free (docs/PROFILE.md,
//! "Phase C: a node").
#![tactic(auto)]

mod freeing;
mod leaving;
mod places;
mod starts;

pub use leaving::{FreedLater, QueueAfter};
pub use places::Places;
pub use starts::begins_here;
