//! Who takes the events of a day from the rings, and makes their lines.

ghost use Rattle.std.specs.Prelude.{◌-◌, ℕ, OnOk};
ghost use Rattle.events.specs.Lines.{AreInBook};
ghost use Rattle.partition.specs.declared.owner.Owner.{Owner};
ghost use Rattle.scoring.specs.Tables.{scoring_rows};
ghost use Rattle.streamed_day.specs.Coming.{seconds_from};
ghost use Rattle.town.specs.{Views.setup, declared.day_input.DayInput.DayInput};
ghost use Rattle.collected_day.specs.Taking.{IsTaking, HasTaken, CanHandleMore};

use crate::gathering::next_span;
use crate::stream::{Spanwise, Stream};
use event_handler::EventHandler;
use event_pipe::Gather;
use event_writer::take_piece;
use events::Book;
use scoring::Tables;
use std::alloc::AllocError;
use std::sync::Wait;

/// What takes the events of a day, span by span.
#[derive(Drop)]
pub(crate) struct Taking<S: Stream> {
    /// The rings.
    pub(crate) gather: Gather<Spanwise<S>>,
    /// The first second of which nothing was taken yet.
    pub(crate) second: u32,
    /// Who has handled what was taken.
    pub(crate) handler: EventHandler,
    /// The lines of what was taken last.
    pub(crate) text: Vec<u8>,
}

/// Takes what happened up to a second, which is that up to which it was taken or the end of the next span.
///
/// # Errors
///
/// `AllocError`: there is no memory for the events or their lines, or some partition is gone and some piece of the span is not
/// there.
pub(crate) fn take_due<S: Stream, R: Wait>(
    rt: &R,
    tables: &Tables,
    book: &Book,
    second: u32,
    taking: &mut Taking<S>,
) -> Result<(), AllocError>
    requires due { (day : DayInput) × (owner : Owner) × (end : ℕ) × IsTaking S.told_in_spans day owner end second taking.old
        × AreInBook (seconds_from (setup day) taking.old.second (second - taking.old.second)) book.now
        × CanHandleMore (scoring_rows tables.now) (seconds_from (setup day) taking.old.second (second - taking.old.second))
        taking.old.handler }
    ensures { OnOk result ((day : DayInput) (owner : Owner) (end : ℕ) → IsTaking S.told_in_spans day owner end second taking.old
        → HasTaken S.told_in_spans day owner end second (scoring_rows tables.now) book.now taking.old taking.new) }
{
    let alloc = *taking.text.allocator();
    // What was taken before is written: its lines are let go before the next ones are made.
    taking.text = Vec::new(alloc);
    if taking.second >= second {
        return Ok(());
    }
    let events = next_span(rt, alloc, &mut taking.gather)?;
    taking.text = take_piece(alloc, tables, book, &events, &mut taking.handler)?;
    taking.second = second;
    Ok(())
}
