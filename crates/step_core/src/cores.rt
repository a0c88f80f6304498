//! The core.

use crate::part::{BorderList, Part};
use crate::wheel::Wheel;

/// The partitions of a run at their own seconds, and what they sent to one another and did not absorb yet.
#[derive(Drop)]
pub struct Core<T: Part> {
    /// How many seconds each partition has done, by number.
    pub(crate) done: Vec<u32>,
    /// Which of them found no memory in a second; they take part no more.
    pub(crate) stopped: Vec<bool>,
    /// The neighbours of each.
    pub(crate) borders: Vec<BorderList>,
    pub(crate) parts: Vec<T>,
    /// What was sent to each.
    pub(crate) wheels: Vec<Wheel<T::Parcel>>,
}

/// What a step on a partition came to.
#[derive(Clone, Copy, Debug, PartialEq, Eq)]
pub enum Step {
    /// It did its next second.
    Done,
    /// It may not yet: the least of the neighbours that are too far behind, and how many seconds that one has done.
    Waits { neighbour: u32, published: u32 },
    /// It has done all its seconds.
    Ended,
}
