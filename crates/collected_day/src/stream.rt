//! What is promised of the rings over which the events of a day come.

ghost use Rattle.std.specs.Prelude.{ℕ, List, []};
ghost use Rattle.events.specs.declared.event.Event.{Event};
ghost use Rattle.collected_day.specs.Streams.{IsNext};

use event_pipe::Piece;
use rtrb::Protocol;
use std::marker::{Brand, PhantomData};

/// Names what the partitions of a day tell. Which day that is becomes known while the program runs, and what is promised of a ring is said
/// of its type.
pub(crate) trait Stream {
    /// What a partition tells in a span, by the numbers of both.
    ghost told_in_spans: { ℕ → ℕ → List Event };
}

/// `Brand` tells nothing of its own: the proof of the call that passes it (`day.rt stream_collected`) picks what partitions tell.
impl Stream for Brand {
    ghost told_in_spans = { λ _ _. [] };
}

/// The promise on the ring of each partition: behind the label of the partition piece by piece is what it tells in a span, of the first
/// span first.
pub(crate) struct Spanwise<S> {
    stream: PhantomData<S>,
}

impl<S: Stream> Protocol<Piece> for Spanwise<S> {
    ghost allows = { IsNext S.told_in_spans };
}
