//! A day of a town in partitions, on one thread: the town is divided, its partitions step in turn until all have come to the end, and what
//! they told is merged. What a partition is, is known here by a small contract alone.
#![tactic(auto)]

mod days;
mod dividing;
mod homes;
mod listing;
mod part;
mod slots;

pub use days::{divided_day, merged_events};
pub use dividing::{Division, divide};
pub use listing::{NumberList, numbers_at};
pub use part::DayPart;
