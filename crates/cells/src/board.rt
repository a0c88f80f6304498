// A board, its hub and its ports.
ghost use Rattle.std.specs.Prelude.{◌≡◌, ◌*◌, ◌≤◌, length};
ghost use Rattle.cells.specs.{Rule.AreChannelsOf, Rule.AreSingle, declared.TheConstants.SLOTS_APART, declared.TheConstants.WORDS_APART};

use crate::table::{Border, Channel, Exchange, Layout, Rule, View};
use atomic_table::{Seat, Table};
use std::alloc::Global;

/// The table that all threads share: a word for each partition, the seconds that it has published, and a ring of slots for each ordered
/// pair of neighbours.
#[derive(Drop)]
pub struct Board<T: Exchange> {
    pub(crate) table: Table<Option<T::Parcel>, View<T::Run>, Layout<T::Run>, Rule<T>, Global>,
    pub(crate) channels: Vec<Channel>,
    pub(crate) count: u32,
    ghost channels_are: { table.shared.key.channels.value.items ≡ channels.items },
    ghost count_is: { table.shared.key.count ≡ count },
    ghost words_are: { table.shared.table_id.words ≡ WORDS_APART * count },
    ghost slots_are: { table.shared.table_id.slots ≡ SLOTS_APART * length channels.items },
    ghost sound: { AreChannelsOf count channels.items },
    ghost few: { length channels.items ≤ 8192 },
    ghost single: { AreSingle channels.items },
}

/// Gives each partition its port, and takes the ports back. Contracts see which partitions had a port, and which were joined.
#[derive(Drop)]
pub struct Hub<T: Exchange> {
    pub(crate) seat: Seat<Option<T::Parcel>, View<T::Run>>,
}

/// How far the handing over with one neighbour has come in the second that a port is about to do.
#[derive(Drop)]
pub enum Handover<P> {
    /// The neighbour was not ready yet.
    Awaited,
    /// It was ready, and the parcel from it lies in the port, or it sent none.
    Arrived(Option<P>),
    /// What it sent was taken, or this second is before all that it sends. Unless something is put, nothing is sent to it.
    Taken,
    /// The parcel for it, or that none is sent to it, lies in the port until the second is published.
    Put(Option<P>),
}

/// What a look answers.
#[derive(Clone, Copy, Debug, PartialEq, Eq, Drop)]
pub enum Look {
    /// The neighbour is far enough for the second that the port is about to do.
    Ready,
    /// It has published only so many seconds.
    NotYet { published: u32 },
}

/// The place of one partition on a board. The thread that has it looks at the neighbours, takes, puts and publishes. A port with
/// `done() = t` is about to do second `t`.
#[derive(Drop)]
pub struct Port<T: Exchange> {
    pub(crate) seat: Seat<Option<T::Parcel>, View<T::Run>>,
    pub(crate) partition: u32,
    pub(crate) done: u32,
    pub(crate) neighbours: Vec<u32>,
    pub(crate) borders: Vec<Border>,
    pub(crate) handovers: Vec<Handover<T::Parcel>>,
    // The places of the neighbours that were ready, in the order in which they were first seen so. It has room for all, and
    // `ROOM_BEHIND` more.
    pub(crate) order: Vec<usize>,
}
