//! The day of an iteration: its events are written as they come, and what they are worth and show is taken of them.

ghost use Rattle.std.specs.Prelude.{◌≡◌, ◌++◌, length, map, IfOk};
ghost use Rattle.day_scores.specs.{Scores.first_kind, Texts.scores_text};
ghost use Rattle.edge_files.specs.World.{byte_steps};
ghost use Rattle.event_handler.specs.Handling.{links_seen, IsSeen};
ghost use Rattle.law_in_range.specs.Setups.{HaveFittingPlans};
ghost use Rattle.scoring.specs.Tables.{scoring_rows};
ghost use Rattle.town.specs.Views.{setup, chosen_in};
ghost use Rattle.traffic.specs.Day as traffic_day;
ghost use Rattle.iterations.specs.{Acts.chosen_numbers, Days.events_of, Days.scores_in, Performed.IsWritten, Performed.moment};
ghost use Rattle.iterations.specs.{Performed.effect_error, Runs.CanRun, Scored.IsSeenOf, Texts.events_text, Views.run_rows};

use crate::days::{chosen_numbers, followed_plans};
use crate::performing::{write, write_scores};
use crate::run::RunInput;
use crate::texts::events_header;
use edge_files::{EffectError, Gate, Keeper, OutFile, Outputs, SureOutputs};
use event_handler::SeenDay;
use event_writer::StreamError;
use plan_memory::Memory;
use rows::Plan;
use std::alloc::{AllocError, Global};
use std::sync::Wait;
use std::thread::Threads;
use town::{DayInput, Town};
use written_day::write_day;

/// Why events were not written, as the error of an effect.
fn effect_error(error: StreamError) -> EffectError
    ensures { result ≡ effect_error error }
{
    match error {
        StreamError::WriteFailed => EffectError::WriteFailed,
        StreamError::NoMemory => EffectError::NoMemory,
    }
}

/// The day of a town in an iteration on which the persons follow these plans.
fn day_of<'a>(town: &'a Town, chosen: &'a [Plan], iteration: u32) -> DayInput<'a>
    ensures town { result.town.now ≡ town.now }
    ensures chosen { result.chosen.now ≡ chosen.now }
    ensures iteration { result.iteration ≡ iteration }
{
    DayInput {
        town,
        chosen,
        iteration,
    }
}

/// Writes the events of a day, as they come, behind the line of its iteration. Answers what was seen of them.
#[tactic(auto, unfolding(crate::specs::Texts::events_text))]
fn write_events<R: Threads + Wait + Sync, O: Outputs, K: Keeper, G: Gate>(
    rt: &R,
    alloc: Global,
    run: &RunInput<G>,
    day: &DayInput,
    outputs: &mut O,
    keeper: &mut K,
) -> Result<SeenDay, EffectError>
    requires given { HaveFittingPlans day.now }
    ensures performed { IsWritten
        (moment (O.written outputs.old) (K.kept keeper.old) (O.faults outputs.old) (K.faults keeper.old))
        (moment (O.written outputs.new) (K.kept keeper.new) (O.faults outputs.new) (K.faults keeper.new))
        (byte_steps OutFile.Events (events_text day.now.iteration (traffic_day.day (setup day.now)) day.now.town.now.book)) result }
    ensures keeper { keeper.new ≡ keeper.old }
    ensures seen { IfOk result
        (IsSeen (scoring_rows run.now.tables.now) (map first_kind (chosen_in day.now)) (traffic_day.day (setup day.now))) }
    ensures links { IfOk result (λ seen. links_seen seen ≡ length day.now.town.now.network.links) }
{
    let Ok(header) = events_header(alloc, day.iteration) else {
        return Err(EffectError::NoMemory);
    };
    match write(outputs, keeper, OutFile::Events, header) {
        Ok(()) => {}
        Err(error) => return Err(error),
    }
    match write_day(rt, alloc, day, run.execution, run.tables, outputs) {
        Ok(seen) => Ok(seen),
        Err(error) => Err(effect_error(error)),
    }
}

/// Writes the day of an iteration on which the persons follow the plans that they have chosen: its events, as they come, and the scores of
/// these plans. Answers what was seen of it.
pub fn see_day<R: Threads + Wait + Sync, O: Outputs, K: Keeper, G: Gate>(
    rt: &R,
    alloc: Global,
    run: &RunInput<G>,
    iteration: u32,
    memories: &[Memory],
    outputs: &mut O,
    keeper: &mut K,
) -> Result<SeenDay, EffectError>
    requires { CanRun (run_rows run.now) memories.now }
    ensures performed { IsWritten
        (moment (O.written outputs.old) (K.kept keeper.old) (O.faults outputs.old) (K.faults keeper.old))
        (moment (O.written outputs.new) (K.kept keeper.new) (O.faults outputs.new) (K.faults keeper.new))
        (byte_steps OutFile.Events
        (events_text iteration (events_of (run_rows run.now) iteration memories.now) run.now.town.now.book)
        ++ byte_steps OutFile.Scores (scores_text iteration run.now.town.now.book.persons (chosen_numbers memories.now)
        (scores_in (run_rows run.now) iteration memories.now))) result }
    ensures keeper { keeper.new ≡ keeper.old }
    ensures seen { IfOk result (IsSeenOf (run_rows run.now) iteration memories.now) }
{
    let Ok(plans) = followed_plans(alloc, memories) else {
        return Err(EffectError::NoMemory);
    };
    let Ok(numbers) = chosen_numbers(alloc, memories) else {
        return Err(EffectError::NoMemory);
    };
    let day = day_of(run.town, &plans, iteration);
    let seen = match write_events(rt, alloc, run, &day, outputs, keeper) {
        Ok(seen) => seen,
        Err(error) => return Err(error),
    };
    let book = &run.town.book;
    match write_scores(
        alloc,
        iteration,
        &seen.scores,
        &numbers,
        book,
        outputs,
        keeper,
    ) {
        Ok(()) => Ok(seen),
        Err(error) => Err(error),
    }
}

/// What is seen of the day of an iteration, of which nothing is written.
pub fn look_at_day<R: Threads + Wait + Sync, G: Gate>(
    rt: &R,
    alloc: Global,
    run: &RunInput<G>,
    iteration: u32,
    memories: &[Memory],
) -> Result<SeenDay, AllocError>
    requires { CanRun (run_rows run.now) memories.now }
    ensures { IfOk result (IsSeenOf (run_rows run.now) iteration memories.now) }
{
    let plans = followed_plans(alloc, memories)?;
    let day = day_of(run.town, &plans, iteration);
    let mut nowhere = SureOutputs::new();
    match write_day(rt, alloc, &day, run.execution, run.tables, &mut nowhere) {
        Ok(seen) => Ok(seen),
        Err(_) => Err(AllocError),
    }
}
