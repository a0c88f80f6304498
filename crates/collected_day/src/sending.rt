//! Partitions that send what they tell, span by span.

ghost use Rattle.std.specs.Prelude.{◌≡◌, ℕ, ◌+◌, ◌-◌, ◌<◌, ◌≤◌, true, refl, length, IfOk};
ghost use Rattle.event_pipe.specs.Pipes.{sent, free};
ghost use Rattle.step_core.specs.Views.{EachAt, HasDone};
ghost use Rattle.collected_day.specs.{Sending.IsSendingOf, Sending.IsSending, Sending.AreNewSenders, Streams.TellsOf};

use crate::spans::SPAN_SECONDS;
use crate::stream::{Spanwise, Stream};
use divided_day::DayPart;
use event_pipe::{Offer, Piece, Sender, SenderList};
use events::{Event, EventList, Rows};
use std::alloc::{AllocError, Global};
use step_core::{BorderList, Part};

/// What a partition told in the span in which it is, and where it sends that.
#[derive(Drop)]
pub(crate) struct Outgoing<S: Stream> {
    sender: Sender<Spanwise<S>>,
    /// Which partition it is.
    partition: u32,
    /// How many seconds it has done.
    done: u32,
    /// The first second of its span.
    began: u32,
    /// What it told in the seconds that it has done of the span.
    kept: Vec<Event>,
}

/// A partition that sends what it tells in a span once the span is over. One that has no sender keeps nothing and sends nothing.
#[derive(Drop)]
pub(crate) struct SendingPart<S: Stream, T: DayPart> {
    part: T,
    outgoing: Option<Outgoing<S>>,
    /// Whether it found no memory in a second: it is of no use then.
    spent: bool,
}

/// Adds what a partition told in the second that it did last. With the last second of a span, or of the day, it is sent, moved and not
/// copied. A place is free for each span that is left.
///
/// # Errors
///
/// `AllocError`: there is no memory for an event.
fn send_on<S: Stream, T: DayPart>(
    run: &T::Run,
    part: &T,
    outgoing: Outgoing<S>,
) -> Result<Outgoing<S>, AllocError>
    requires streams { T.streams run.now ≡ true }
    requires there { (T.see part.now).number < (T.net run.now).parts }
    requires some { 0 < (T.see part.now).seconds }
    requires within { (T.see part.now).seconds ≤ (T.net run.now).end }
    requires at { HasDone T.nothing T.see (T.stands run.now) (T.see part.now).number (T.see part.now).seconds
        (length (T.borders run.now (T.see part.now).number)) part.now }
    requires sending { IsSending S.told_in_spans (T.day run.now) (T.owner run.now) (T.net run.now).end (T.see part.now).number
        ((T.see part.now).seconds - 1) outgoing }
    ensures { IfOk result (IsSending S.told_in_spans (T.day run.now) (T.owner run.now) (T.net run.now).end (T.see part.now).number
        (T.see part.now).seconds) }
{
    let Outgoing {
        mut sender,
        partition,
        done,
        began,
        mut kept,
    } = outgoing;
    kept.extend_from_slice(part.told(run))?;
    let done = done + 1;
    if done - began < SPAN_SECONDS && done < T::end(run) {
        return Ok(Outgoing {
            sender,
            partition,
            done,
            began,
            kept,
        });
    }
    let alloc = *kept.allocator();
    let piece = Piece {
        partition,
        events: Rows { rows: kept },
    };
    match sender.offer(piece) {
        Offer::Sent => Ok(Outgoing {
            sender,
            partition,
            done,
            began: done,
            kept: Vec::new(alloc),
        }),
        Offer::Full(_) => unreachable!(),
    }
}

impl<S: Stream, T: DayPart> Part for SendingPart<S, T> {
    type Run = T::Run;

    type Parcel = T::Parcel;

    ghost nothing = { T.nothing };

    ghost net = { T.net };

    ghost borders = { T.borders };

    ghost see = { λ x. T.see x.part };

    ghost stands = { IsSendingOf S.told_in_spans T.day T.owner T.streams T.net T.see T.stands };

    ghost spent = { λ x. x.spent ≡ true };

    ghost right = { T.right };

    fn nothing() -> T::Parcel
        ensures { result ≡ T.nothing }
    {
        T::nothing()
    }

    fn is_nothing(parcel: &T::Parcel) -> bool
        ensures { result ≡ true → parcel.now ≡ T.nothing }
    {
        T::is_nothing(parcel)
    }

    fn count(run: &T::Run) -> u32 {
        T::count(run)
    }

    fn end(run: &T::Run) -> u32 {
        T::end(run)
    }

    fn borders(alloc: Global, run: &T::Run, number: u32) -> Result<BorderList, AllocError> {
        let rows = T::borders(alloc, run, number)?;
        Ok(rows)
    }

    fn start(alloc: Global, run: &T::Run, number: u32) -> Result<SendingPart<S, T>, AllocError> {
        let part = T::start(alloc, run, number)?;
        Ok(SendingPart {
            part,
            outgoing: None,
            spent: false,
        })
    }

    fn absorb(&mut self, place: usize, parcel: T::Parcel) {
        self.part.absorb(place, parcel);
    }

    fn second(&mut self, run: &T::Run) -> Result<(), AllocError> {
        self.spent = true;
        self.part.second(run)?;
        let Some(outgoing) = self.outgoing.take() else {
            self.spent = false;
            return Ok(());
        };
        let later = send_on(run, &self.part, outgoing)?;
        self.outgoing = Some(later);
        self.spent = false;
        Ok(())
    }

    fn next_parcel(&self, from: usize) -> Option<usize> {
        self.part.next_parcel(from)
    }

    fn outbox(&mut self, place: usize) -> T::Parcel {
        self.part.outbox(place)
    }
}

impl<S: Stream, T: DayPart> DayPart for SendingPart<S, T> {
    ghost day = { T.day };

    ghost owner = { T.owner };

    ghost streams = { T.streams };

    ghost nets = { T.nets };

    ghost neighbours = { T.neighbours };

    fn told(&self, run: &T::Run) -> &[Event] {
        self.part.told(run)
    }

    fn finish(self, alloc: Global, run: &T::Run) -> Result<EventList, AllocError> {
        let SendingPart {
            part,
            outgoing: _outgoing,
            spent: _spent,
        } = self;
        let events = part.finish(alloc, run)?;
        Ok(events)
    }
}

/// The partitions of a run before their first second, by number, each with its sender.
///
/// # Errors
///
/// `AllocError`: there is no memory for them.
pub(crate) fn sending_parts<S: Stream, T: DayPart>(
    alloc: Global,
    run: &T::Run,
    senders: SenderList<Spanwise<S>>,
) -> Result<Vec<SendingPart<S, T>>, AllocError>
    requires streams { T.streams run.now ≡ true }
    requires told { TellsOf S.told_in_spans (T.day run.now) (T.owner run.now) (T.net run.now).end }
    requires senders { AreNewSenders (T.net run.now).end (T.net run.now).parts senders }
    ensures count { IfOk result (λ parts. length parts.items ≡ (T.net run.now).parts) }
    ensures start { IfOk result (λ parts. EachAt T.nothing ⟦<SendingPart<S, T> as Part>⟧.see
        (⟦<SendingPart<S, T> as Part>⟧.stands run.now) 0 (λ p. length (T.borders run.now p)) (T.net run.now).parts parts.items) }
{
    let Rows { rows } = senders;
    let mut parts = Vec::new(alloc);
    let mut number = 0;
    for sender in rows {
        parts.push(SendingPart {
            part: T::start(alloc, run, number)?,
            outgoing: Some(Outgoing {
                sender,
                partition: number,
                done: 0,
                began: 0,
                kept: Vec::new(alloc),
            }),
            spent: false,
        })?;
        number += 1;
    }
    Ok(parts)
}
