//! Border cells: the table through which the partitions of a parallel simulation hand parcels to their neighbours, without a lock.
//!
//! The partitions advance second by second, as in conservative parallel simulation with lookahead: partition `p` may do
//! second `t` once each neighbour `q` has done more than `t - lag` seconds, where the lag (the lookahead of the ordered pair, 1 to 32 s) is
//! the number of seconds before which nothing that `q` does is felt at `p`. A [`Port`] stands for one partition. In each second it looks at
//! its neighbours ([`Port::look`]), takes the parcel that each sent `lag` seconds ago ([`Port::take`]), puts one for each to
//! which it sends one ([`Port::put`]) and publishes the second ([`Port::publish`]), by one atomic store. None of these calls waits, locks
//! or takes memory.
//!
//! What is sent is an [`Exchange`], whose one meaning is which parcel is right. Under every schedule of the threads that have the ports,
//! `take` gives exactly the right parcel, and each parcel is taken exactly once.
#![tactic(auto)]

mod board;
mod borders;
mod hub;
mod looking;
mod opening;
mod publishing;
mod slots;
mod table;
mod taking;

pub use board::{Board, Handover, Hub, Look, Port};
use limits::MAX_LAG;
pub use table::Exchange;

/// The slots of each ordered pair of neighbours: as many as two of the longest lags, so that no two parcels on their way share one.
pub const SLOTS: u32 = 2 * MAX_LAG;

/// The distance between the first slots of two pairs: one more than the slots, since the slots of one second of many pairs would else lie
/// in the same few sets of a cache.
pub(crate) const SLOTS_APART: u32 = SLOTS + 1;

/// The distance between the words of two partitions, in words of 8 bytes: a cache line of 64 bytes, so that a thread that publishes does
/// not take from others a line that they read another partition's word from.
pub(crate) const WORDS_APART: usize = 8;

/// The room behind a list that a port writes in each second, in elements of 8 bytes: two cache lines, so that no other thread reads from a
/// line that it writes.
pub(crate) const ROOM_BEHIND: usize = 16;
