//! What comes over the rings, span by span.

ghost use Rattle.std.specs.Prelude.{◌≡◌, ◌+◌, ◌*◌, ℕ, IfOk};
ghost use Rattle.partition.specs.declared.owner.Owner.{Owner};
ghost use Rattle.streamed_day.specs.Coming.{seconds_from};
ghost use Rattle.town.specs.{Views.setup, declared.day_input.DayInput.DayInput};
ghost use Rattle.collected_day.specs.{Streams.IsComing, Streams.span_length, declared.spans.TheConstants.SPAN_SECONDS};

use crate::stream::{Spanwise, Stream};
use event_merge::merge;
use event_pipe::{Gather, Gathered};
use events::Event;
use std::alloc::{AllocError, Global};
use std::sync::Wait;
use std::thread::yield_now;

/// What happened in the next span, in the order of the keys: the pieces of all partitions, merged. It waits for them; where all partitions
/// have done the span, and no thread is left that did it, all are there, which no clause knows.
///
/// # Errors
///
/// `AllocError`: there is no memory for the events, or some partition is gone and some piece of the span is not there.
pub(crate) fn next_span<S: Stream, R: Wait>(
    rt: &R,
    alloc: Global,
    gather: &mut Gather<Spanwise<S>>,
) -> Result<Vec<Event>, AllocError>
    requires coming { (day : DayInput) × (owner : Owner) × (end : ℕ) × (n : ℕ)
        × IsComing S.told_in_spans day owner end n gather.old }
    ensures { IfOk result (λ events. (day : DayInput) (owner : Owner) (end n : ℕ) → IsComing S.told_in_spans day owner end n gather.old
        → IsComing S.told_in_spans day owner end (n + 1) gather.new
        × (events.items ≡ seconds_from (setup day) (n * SPAN_SECONDS) (span_length end n))) }
{
    for _ in rt.forever() {
        // Before it looks for pieces: whoever is gone now has sent all that it will.
        let is_abandoned = gather.is_abandoned();
        match gather.next(alloc)? {
            Gathered::Pieces(lists) => {
                let events = merge(alloc, lists)?;
                return Ok(events);
            }
            Gathered::Short {
                partition: _partition,
            } => {}
        }
        if is_abandoned {
            return Err(AllocError);
        }
        yield_now();
    }
    unreachable!()
}
