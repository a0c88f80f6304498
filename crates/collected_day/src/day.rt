//! A day on several threads that is written while it runs.

ghost use Rattle.std.specs.Prelude.{◌≡◌, ◌-◌, ◌<◌, ◌≤◌, ℕ, true, IfOk};
ghost use Rattle.collected_day.specs.{Spans.IsUnderWay, Spans.told_at_end, Streams.TellsOf};
ghost use Rattle.collected_day.specs.Taking.{IsTaking, CanHandleMore, HasHandledOn, HasSeenMore};
ghost use Rattle.event_handler.specs.Handling.{kinds_of, links_in, links_seen};
ghost use Rattle.event_writer.specs.Writing.{IsWritten, CanTake, AreWritten};
ghost use Rattle.events.specs.Lines.{AreInBook, event_lines};
ghost use Rattle.law_in_range.specs.Setups.{HaveFittingPlans};
ghost use Rattle.partition.specs.declared.owner.Owner.{Owner};
ghost use Rattle.scoring.specs.Tables.{scoring_rows};
ghost use Rattle.streamed_day.specs.Coming.{seconds_from};
ghost use Rattle.town.specs.{Views.setup, declared.day_input.DayInput.DayInput};
ghost use Rattle.traffic.specs.Day as traffic_day;
ghost use Rattle.workers.specs.Running.{IsRunning};

use crate::jobs::{Progress, go_on};
use crate::partitions::Partitions;
use crate::sending::{SendingPart, sending_parts};
use crate::spans::SPAN_SECONDS;
use crate::stream::{Spanwise, Stream};
use crate::taking::{Taking, take_due};
use divided_day::DayPart;
use edge_files::{Gate, Outputs};
use event_handler::{EventHandler, SeenDay};
use event_pipe::pipe;
use event_writer::{StreamError, stream_piece, write_text};
use events::{Book, Event};
use scoring::Tables;
use std::alloc::{AllocError, Global};
use std::marker::Brand;
use std::sync::Wait;
use std::thread::Threads;
use step_core::Part;
use streamed_day::ends_of;
use workers::{Crew, Running};

/// A day before its first second, with a ring for each partition.
///
/// # Errors
///
/// `AllocError`: there is no memory for the partitions or their rings.
fn begin<S: Stream, T: DayPart>(
    alloc: Global,
    run: &T::Run,
    workers: u32,
    loads: &[usize],
    handler: EventHandler,
) -> Result<Progress<S, SendingPart<S, T>>, AllocError>
where
    T::Parcel: Send,
    requires some { 1 ≤ workers }
    requires given { HaveFittingPlans (T.day run.now) }
    requires streams { T.streams run.now ≡ true }
    requires told { TellsOf S.told_in_spans (T.day run.now) (T.owner run.now) (T.net run.now).end }
    ensures under_way { IfOk result (λ p. IsUnderWay T.net T.borders T.nothing ⟦<SendingPart<S, T> as Part>⟧.see
        ⟦<SendingPart<S, T> as Part>⟧.stands ⟦<SendingPart<S, T> as Part>⟧.spent T.right run.now 0 p.partitions.running) }
    ensures taking { IfOk result (λ p. IsTaking S.told_in_spans (T.day run.now) (T.owner run.now) (T.net run.now).end 0 p.taking) }
    ensures first { IfOk result (λ p. (p.partitions.second ≡ 0) × (p.taking.second ≡ 0)) }
    ensures handler { IfOk result (λ p. p.taking.handler ≡ handler) }
{
    let room = T::end(run) / SPAN_SECONDS + 1;
    let (senders, gather) = pipe::<Spanwise<S>>(alloc, T::count(run), room)?;
    let parts = sending_parts::<S, T>(alloc, run, senders)?;
    let running = Running::<SendingPart<S, T>>::of(alloc, run, parts, workers, loads)?;
    Ok(Progress {
        partitions: Partitions { running, second: 0 },
        taking: Taking {
            gather,
            second: 0,
            handler,
            text: Vec::new(alloc),
        },
    })
}

/// What is told of the end of a day, of which all seconds are done, in the order of the keys.
///
/// # Errors
///
/// `AllocError`: there is no memory for the events.
fn end_of_day<T: DayPart>(
    alloc: Global,
    run: &T::Run,
    running: Running<T>,
) -> Result<Vec<Event>, AllocError>
where
    T::Parcel: Send,
    requires given { HaveFittingPlans (T.day run.now) }
    requires streams { T.streams run.now ≡ true }
    requires running { IsRunning T.net T.borders T.nothing T.see T.stands T.spent T.right run.now (T.net run.now).end running }
    ensures { IfOk result (λ events. events.items ≡ told_at_end (setup (T.day run.now)) (T.net run.now).end) }
{
    let parts = running.into_parts(alloc, run)?;
    let events = ends_of::<T>(alloc, run, parts)?;
    Ok(events)
}

/// Takes what happened up to a second, which is that up to which it was taken or the end of the next span, writes its lines, and answers
/// who has handled it. Nothing is left of the rings then.
///
/// # Errors
///
/// `WriteFailed`: a write failed. `NoMemory`: memory was wanting, or some partition is gone and some piece of the span is not there. A
/// front of the lines was written then.
fn write_due<S: Stream, R: Wait, O: Outputs>(
    rt: &R,
    tables: &Tables,
    book: &Book,
    second: u32,
    taking: Taking<S>,
    outputs: &mut O,
) -> Result<EventHandler, StreamError>
    requires due { (day : DayInput) × (owner : Owner) × (end : ℕ) × IsTaking S.told_in_spans day owner end second taking
        × AreInBook (seconds_from (setup day) taking.second (second - taking.second)) book.now
        × CanHandleMore (scoring_rows tables.now) (seconds_from (setup day) taking.second (second - taking.second)) taking.handler }
    ensures written { (day : DayInput) (owner : Owner) (end : ℕ) → IsTaking S.told_in_spans day owner end second taking
        → IsWritten (O.written outputs.old) (O.written outputs.new) (O.faults outputs.old) (O.faults outputs.new)
        (event_lines (seconds_from (setup day) taking.second (second - taking.second)) book.now) result }
    ensures handled { IfOk result (λ handler. (day : DayInput) (owner : Owner) (end : ℕ)
        → IsTaking S.told_in_spans day owner end second taking
        → HasHandledOn (scoring_rows tables.now) (seconds_from (setup day) taking.second (second - taking.second)) taking.handler
        handler) }
{
    let mut taking = taking;
    match take_due(rt, tables, book, second, &mut taking) {
        Ok(()) => {}
        Err(_) => return Err(StreamError::NoMemory),
    }
    let Taking {
        gather: _gather,
        second: _second,
        handler,
        text,
    } = taking;
    match write_text(outputs, &text) {
        Ok(()) => Ok(handler),
        Err(error) => Err(error),
    }
}

/// Writes what is told of the end of a day, of which all seconds are done, and answers what was seen of the day: of what the handler took
/// before, and of its end.
///
/// # Errors
///
/// `WriteFailed`: a write failed. `NoMemory`: memory was wanting. A front of the lines was written then.
fn write_end<T: DayPart, O: Outputs>(
    alloc: Global,
    run: &T::Run,
    tables: &Tables,
    book: &Book,
    running: Running<T>,
    handler: EventHandler,
    outputs: &mut O,
) -> Result<SeenDay, StreamError>
where
    T::Parcel: Send,
    requires given { HaveFittingPlans (T.day run.now) }
    requires streams { T.streams run.now ≡ true }
    requires running { IsRunning T.net T.borders T.nothing T.see T.stands T.spent T.right run.now (T.net run.now).end running }
    requires named { AreInBook (told_at_end (setup (T.day run.now)) (T.net run.now).end) book.now }
    requires can { CanHandleMore (scoring_rows tables.now) (told_at_end (setup (T.day run.now)) (T.net run.now).end) handler }
    ensures written { IsWritten (O.written outputs.old) (O.written outputs.new) (O.faults outputs.old) (O.faults outputs.new)
        (event_lines (told_at_end (setup (T.day run.now)) (T.net run.now).end) book.now) result }
    ensures seen { IfOk result
        (HasSeenMore (scoring_rows tables.now) (told_at_end (setup (T.day run.now)) (T.net run.now).end) handler) }
    ensures links { IfOk result (λ seen. links_seen seen ≡ links_in handler) }
{
    let Ok(events) = end_of_day::<T>(alloc, run, running) else {
        return Err(StreamError::NoMemory);
    };
    let mut handler = handler;
    match stream_piece(alloc, tables, book, &events, &mut handler, outputs) {
        Ok(()) => {}
        Err(error) => return Err(error),
    }
    match handler.finish(alloc, tables) {
        Ok(seen) => Ok(seen),
        Err(_) => Err(StreamError::NoMemory),
    }
}

/// Computes and writes a day of which no second is done yet, whose partitions tell what is promised.
///
/// # Errors
///
/// Those of `stream_collected`.
fn write_on<S: Stream + Send, T: DayPart + Send, R: Threads + Wait + Sync, G: Gate, O: Outputs>(
    crew: &Crew<R, G>,
    run: &T::Run,
    tables: &Tables,
    book: &Book,
    progress: Progress<S, T>,
    outputs: &mut O,
) -> Result<SeenDay, StreamError>
where
    T::Run: Send + Sync,
    T::Parcel: Send + Sync,
    requires given { HaveFittingPlans (T.day run.now) }
    requires streams { T.streams run.now ≡ true }
    requires under_way { IsUnderWay T.net T.borders T.nothing T.see T.stands T.spent T.right run.now 0 progress.partitions.running }
    requires taking { IsTaking S.told_in_spans (T.day run.now) (T.owner run.now) (T.net run.now).end 0 progress.taking }
    requires first { (progress.partitions.second ≡ 0) × (progress.taking.second ≡ 0) }
    requires takes { CanTake (scoring_rows tables.now) book.now progress.taking.handler (traffic_day.day (setup (T.day run.now))) }
    ensures { AreWritten (scoring_rows tables.now) book.now (traffic_day.day (setup (T.day run.now))) (kinds_of progress.taking.handler)
        (links_in progress.taking.handler) (O.written outputs.old) (O.written outputs.new) (O.faults outputs.old) (O.faults outputs.new)
        result }
{
    let mut progress = progress;
    while progress.partitions.second < T::end(run) {
        let Ok(later) = go_on(crew.rt, crew.gate, run, tables, book, progress) else {
            return Err(StreamError::NoMemory);
        };
        match write_text(outputs, &later.taking.text) {
            Ok(()) => {}
            Err(error) => return Err(error),
        }
        progress = later;
    }
    let Progress { partitions, taking } = progress;
    let Partitions { running, second } = partitions;
    let alloc = *taking.text.allocator();
    let handler = match write_due(crew.rt, tables, book, second, taking, outputs) {
        Ok(handler) => handler,
        Err(error) => return Err(error),
    };
    write_end::<T, O>(alloc, run, tables, book, running, handler, outputs)
}

/// The same from the start, where it is known what the partitions will tell.
fn stream_over<S: Stream + Send, T: DayPart + Send, R: Threads + Wait + Sync, G: Gate, O: Outputs>(
    crew: &Crew<R, G>,
    alloc: Global,
    run: &T::Run,
    tables: &Tables,
    book: &Book,
    handler: EventHandler,
    outputs: &mut O,
) -> Result<SeenDay, StreamError>
where
    T::Run: Send + Sync,
    T::Parcel: Send + Sync,
    requires told { TellsOf S.told_in_spans (T.day run.now) (T.owner run.now) (T.net run.now).end }
    requires some { 1 ≤ crew.now.workers }
    requires given { HaveFittingPlans (T.day run.now) }
    requires streams { T.streams run.now ≡ true }
    requires takes { CanTake (scoring_rows tables.now) book.now handler (traffic_day.day (setup (T.day run.now))) }
    ensures { AreWritten (scoring_rows tables.now) book.now (traffic_day.day (setup (T.day run.now))) (kinds_of handler)
        (links_in handler) (O.written outputs.old) (O.written outputs.new) (O.faults outputs.old) (O.faults outputs.new) result }
{
    let Ok(progress) = begin::<S, T>(alloc, run, crew.workers, crew.loads, handler) else {
        return Err(StreamError::NoMemory);
    };
    write_on::<S, SendingPart<S, T>, R, G, O>(crew, run, tables, book, progress, outputs)
}

/// Computes a day, writes the lines of its events, those of a span before the one behind the next is computed, and answers what was seen of
/// them. They are those of the day of the undivided town, however it is divided, on however many threads, and whichever gets on first. One
/// thread more than the crew has workers takes what they tell. The handler begins with the day's events.
///
/// # Errors
///
/// `WriteFailed`: a write failed. `NoMemory`: memory was wanting. A front of the lines was written then.
pub fn stream_collected<T: DayPart + Send, R: Threads + Wait + Sync, G: Gate, O: Outputs>(
    crew: &Crew<R, G>,
    alloc: Global,
    run: &T::Run,
    tables: &Tables,
    book: &Book,
    handler: EventHandler,
    outputs: &mut O,
) -> Result<SeenDay, StreamError>
where
    T::Run: Send + Sync,
    T::Parcel: Send + Sync,
    requires some { 1 ≤ crew.now.workers }
    requires given { HaveFittingPlans (T.day run.now) }
    requires streams { T.streams run.now ≡ true }
    requires takes { CanTake (scoring_rows tables.now) book.now handler (traffic_day.day (setup (T.day run.now))) }
    ensures { AreWritten (scoring_rows tables.now) book.now (traffic_day.day (setup (T.day run.now))) (kinds_of handler)
        (links_in handler) (O.written outputs.old) (O.written outputs.new) (O.faults outputs.old) (O.faults outputs.new) result }
{
    stream_over::<Brand, T, R, G, O>(crew, alloc, run, tables, book, handler, outputs)
}
