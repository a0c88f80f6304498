// The types of a board's table, and its rule.
ghost use Rattle.std.specs.Prelude.{ℕ, [], Option};

use atomic_table::{Join, Play, Split, TableRule};
use std::collections::LinkedList;
use std::marker::{Brand, PhantomData};
use std::snapshot::Snapshot;

/// What the partitions of a run send to one another.
pub trait Exchange {
    /// What all parcels of a board are about.
    type Run;

    /// What one partition sends to a neighbour in one second, where it sends something.
    type Parcel: Drop + Send;

    /// Of a run, a sender, a receiver and a second: which parcel is right, or that it is right to send none.
    ghost right: { Self.Run → ℕ → ℕ → ℕ → Option Self.Parcel → Type 0 };
}

/// One direction between two neighbouring partitions.
#[derive(Clone, Copy, Drop)]
pub struct Channel {
    /// The partition that sends.
    pub from: u32,
    /// The partition that receives.
    pub to: u32,
    /// The lag from the sender to the receiver, in seconds.
    pub lag: u32,
    /// The number of the channel back.
    pub twin: u32,
}

/// A neighbour as a port sees it.
#[derive(Clone, Copy, Drop)]
pub struct Border {
    /// The neighbour's partition.
    pub from: u32,
    /// The lag from the neighbour to the port, in seconds.
    pub lag: u32,
    /// The number of the channel from the neighbour.
    pub inward: u32,
    /// The number of the channel to the neighbour.
    pub outward: u32,
}

/// Whose seat it is. No value of it is made at run time.
pub enum Role {
    /// The hub's.
    Hub,
    /// A port's.
    Port,
    /// A port's that was joined.
    Spent,
}

/// What a seat knows. No value of it is made at run time.
pub struct View<R> {
    pub run: Option<R>,
    pub role: Role,
    // Of a port: its partition, the seconds done, and the channels from the neighbours that were ready in this second.
    pub partition: u32,
    pub done: u32,
    pub marks: LinkedList<u32>,
    // Of a port: how many looks answered NotYet, how many had at the last publishing, how many looks there were, and whose word the last
    // one read, with what it held.
    pub waits: u64,
    pub still: u64,
    pub looks: u64,
    pub read_partition: u32,
    pub read_word: u64,
    // Of the hub: the partitions that had a port, and those whose port was joined.
    pub had_port: LinkedList<u32>,
    pub joined: LinkedList<u32>,
}

/// What the table is told once, when it is made.
#[derive(Drop)]
pub struct Layout<R> {
    pub run: Snapshot<R>,
    pub count: u32,
    pub channels: Snapshot<Vec<Channel>>,
}

/// The rule of a board's table.
pub struct Rule<T> {
    marker: PhantomData<T>,
}

impl<T: Exchange> TableRule<Option<T::Parcel>, View<T::Run>, Layout<T::Run>> for Rule<T> {
    ghost use Rattle.cells.specs.Rule.{IsKept, hub_view};

    ghost holds = { IsKept T.right };

    ghost first = { λ k. hub_view k.run.value [] [] };
}

/// What is known when a call is made, for the proof alone: the border that it is about, or the partition.
pub trait Known {
    ghost use Rattle.cells.specs.declared.table.Border.{Border};

    ghost border: { Border };

    ghost partition: { ℕ };
}

impl Known for Brand {
    ghost use Rattle.cells.specs.Rule.{no_border};

    ghost border = { no_border };

    ghost partition = { 0 };
}

/// The step of a look at the neighbour over a border.
pub(crate) struct Looking<T, J> {
    of: PhantomData<(T, J)>,
}

impl<T: Exchange, J: Known> Play<Option<T::Parcel>, View<T::Run>> for Looking<T, J> {
    ghost use Rattle.cells.specs.Rule.{Looks};

    ghost then = { λ s m n w. Looks T.right J.border s.word m n w };
}

/// The step of a publishing.
pub(crate) struct Publishing;

impl<R, S> Play<Option<S>, View<R>> for Publishing {
    ghost use Rattle.cells.specs.Rule.{Publishes};

    ghost then = { λ s m n w. Publishes m w };
}

/// How the hub's view is cut when a port is split off.
pub(crate) struct SplitOff<J> {
    of: PhantomData<J>,
}

impl<R, J: Known> Split<View<R>> for SplitOff<J> {
    ghost use Rattle.cells.specs.Rule.{hub_after, port_view};

    ghost left = { λ v. hub_after v J.partition };

    ghost right = { λ v. port_view v.run J.partition };
}

/// How a port's view is joined to the hub's.
pub(crate) struct JoinBack;

impl<R> Join<View<R>> for JoinBack {
    ghost use Rattle.cells.specs.Rule.{hub_joined, spent_view};

    ghost both = { hub_joined };

    ghost spent = { spent_view };
}
