//! A day that is written.

ghost use Rattle.std.specs.Prelude.{◌≡◌, true, length, map, IfOk};
ghost use Rattle.day_scores.specs.Scores.{first_kind};
ghost use Rattle.event_handler.specs.Handling.{kinds_of, links_in};
ghost use Rattle.law_in_range.specs.Setups.{HaveFittingPlans};
ghost use Rattle.scoring.specs.Tables.{ScoringRows, scoring_rows};
ghost use Rattle.town.specs.Views.{chosen_in, setup};
ghost use Rattle.traffic.specs.Day as traffic_day;
ghost use Rattle.written_day.specs.Days.{CanTakeDay, IsDayWritten};

use crate::execution::Execution;
use collected_day::{Crew, StreamedDay, stream_collected};
use day_scores::first_kinds;
use edge_files::{Gate, Outputs};
use event_handler::{EventHandler, SeenDay};
use event_writer::{EventSource, ListedEvents, StreamError, stream_events};
use parted_day::{Run, TownPart, day_in_parts, run_of, share};
use scoring::Tables;
use std::alloc::{AllocError, Global};
use std::sync::Wait;
use std::thread::Threads;
use town::DayInput;

/// Writes and handles the events of a day, which come from a source.
fn write_events<S: EventSource, O: Outputs>(
    alloc: Global,
    day: &DayInput,
    source: &mut S,
    tables: &Tables,
    handler: EventHandler,
    outputs: &mut O,
) -> Result<SeenDay, StreamError>
    requires given { HaveFittingPlans day.now }
    requires ready { S.ready source.old }
    requires rest { S.rest source.old ≡ traffic_day.day (setup day.now) }
    requires takes { CanTakeDay (scoring_rows tables.now) handler day.now }
    ensures { IsDayWritten day.now (scoring_rows tables.now) (kinds_of handler) (links_in handler)
        (O.written outputs.old) (O.written outputs.new) (O.faults outputs.old) (O.faults outputs.new) result }
{
    stream_events(alloc, source, tables, &day.town.book, handler, outputs)
}

/// Computes the day of a run whose events are taken while it goes on, on this thread, and writes and handles those of each second before
/// the next one.
fn write_run<'a, G: Gate, O: Outputs>(
    run: &Run<'a>,
    gate: &G,
    tables: &Tables,
    handler: EventHandler,
    outputs: &mut O,
) -> Result<SeenDay, StreamError>
    requires streams { run.now.streams ≡ true }
    requires takes { CanTakeDay (scoring_rows tables.now) handler run.now.day.now }
    ensures { IsDayWritten run.now.day.now (scoring_rows tables.now) (kinds_of handler) (links_in handler)
        (O.written outputs.old) (O.written outputs.new) (O.faults outputs.old) (O.faults outputs.new) result }
{
    let alloc = run.alloc;
    let Ok(mut source) = StreamedDay::<TownPart<'a>, G>::new(alloc, run, gate) else {
        return Err(StreamError::NoMemory);
    };
    write_events(alloc, run.day, &mut source, tables, handler, outputs)
}

/// The same on several threads, which compute a span of seconds while the events of the span before are handled and made into lines; these
/// are written behind both.
fn write_collected<'a, R: Threads + Wait + Sync, G: Gate, O: Outputs>(
    rt: &R,
    run: &Run<'a>,
    execution: Execution<G>,
    tables: &Tables,
    handler: EventHandler,
    outputs: &mut O,
) -> Result<SeenDay, StreamError>
    requires streams { run.now.streams ≡ true }
    requires takes { CanTakeDay (scoring_rows tables.now) handler run.now.day.now }
    ensures { IsDayWritten run.now.day.now (scoring_rows tables.now) (kinds_of handler) (links_in handler)
        (O.written outputs.old) (O.written outputs.new) (O.faults outputs.old) (O.faults outputs.new) result }
{
    let alloc = run.alloc;
    let crew = Crew {
        rt,
        gate: execution.gate,
        workers: execution.spread.workers,
        loads: run.loads,
    };
    let day = run.day;
    stream_collected::<TownPart<'a>, R, G, O>(
        &crew,
        alloc,
        run,
        tables,
        &day.town.book,
        handler,
        outputs,
    )
}

/// Computes a day as it is asked for, and writes and handles its events: when it is over, or while it goes on.
fn write_as_asked<R: Threads + Wait + Sync, G: Gate, O: Outputs>(
    rt: &R,
    alloc: Global,
    day: &DayInput,
    execution: Execution<G>,
    tables: &Tables,
    handler: EventHandler,
    outputs: &mut O,
) -> Result<SeenDay, StreamError>
    requires given { HaveFittingPlans day.now }
    requires takes { CanTakeDay (scoring_rows tables.now) handler day.now }
    ensures { IsDayWritten day.now (scoring_rows tables.now) (kinds_of handler) (links_in handler)
        (O.written outputs.old) (O.written outputs.new) (O.faults outputs.old) (O.faults outputs.new) result }
{
    if !execution.streams {
        let Ok(events) = day_in_parts(rt, alloc, day, execution.spread, execution.gate) else {
            return Err(StreamError::NoMemory);
        };
        let mut source = ListedEvents::new(events);
        return write_events(alloc, day, &mut source, tables, handler, outputs);
    }
    let Ok(shared) = share(alloc, day, execution.spread.partitions) else {
        return Err(StreamError::NoMemory);
    };
    let run = run_of(alloc, &*day, &shared, true);
    if execution.spread.workers == 1 || execution.spread.partitions == 1 {
        return write_run(&run, execution.gate, tables, handler, outputs);
    }
    write_collected(rt, &run, execution, tables, handler, outputs)
}

/// A handler for a day, which has taken none of its events.
fn handler_for(alloc: Global, day: &DayInput) -> Result<EventHandler, AllocError>
    requires { HaveFittingPlans day.now }
    ensures kinds { IfOk result (λ handler. kinds_of handler ≡ map first_kind (chosen_in day.now)) }
    ensures links { IfOk result (λ handler. links_in handler ≡ length day.now.town.now.network.links) }
    ensures takes { IfOk result (λ handler. (scoring : ScoringRows) → CanTakeDay scoring handler day.now) }
{
    let kinds = first_kinds(alloc, day.chosen)?;
    let handler = EventHandler::new(alloc, &kinds, day.town.network.links.len())?;
    Ok(handler)
}

/// Computes a day as it is asked for, writes the lines of its events, and answers what was seen of them: exactly what the events of the day
/// are worth to each person and show of travel times on the links of the town, and how many they are, however the day is computed.
///
/// # Errors
///
/// `WriteFailed`: a write failed. `NoMemory`: memory was wanting. A front of the lines was written then.
pub fn write_day<R: Threads + Wait + Sync, G: Gate, O: Outputs>(
    rt: &R,
    alloc: Global,
    day: &DayInput,
    execution: Execution<G>,
    tables: &Tables,
    outputs: &mut O,
) -> Result<SeenDay, StreamError>
    requires given { HaveFittingPlans day.now }
    ensures { IsDayWritten day.now (scoring_rows tables.now) (map first_kind (chosen_in day.now)) (length day.now.town.now.network.links)
        (O.written outputs.old) (O.written outputs.new) (O.faults outputs.old) (O.faults outputs.new) result }
{
    let Ok(handler) = handler_for(alloc, day) else {
        return Err(StreamError::NoMemory);
    };
    write_as_asked(rt, alloc, day, execution, tables, handler, outputs)
}
