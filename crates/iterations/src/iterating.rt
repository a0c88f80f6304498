//! The loop.

ghost use Rattle.std.specs.Prelude.{◌≡◌, ◌<◌, ◌≤◌, ◌-◌, ◌++◌, false, length, All, IfOk};
ghost use Rattle.edge_files.specs.{Effects.all_steps, World.byte_steps};
ghost use Rattle.limits.specs.declared.TheConstants.{MAX_PERSONS};
ghost use Rattle.scoring.specs.{Ranges.IsWithin, Score.total, declared.TheConstants.MAX_SCORE};
ghost use Rattle.iterations.specs.{Acts.saves, Acts.iteration_effects, Acts.end_effects, Acts.acts_behind, Continued.begun_after};
ghost use Rattle.iterations.specs.{Continued.continued, Continued.acts_after, Days.events_of, Days.memories_after, Performed.IsPerformed};
ghost use Rattle.iterations.specs.{Performed.moment, Runs.CanRun, Scored.AreObserved, Texts.iteration_counts, Views.run_rows};

use crate::days::{replanned, scored};
use crate::ends::write_end;
use crate::performing::write_line;
use crate::run::RunInput;
use crate::saving::save;
use crate::seeing::{look_at_day, see_day};
use edge_files::{EffectError, Gate, Keeper, OutFile, Outputs};
use event_handler::SeenDay;
use plan_memory::Memory;
use router::Adjacency;
use std::alloc::{AllocError, Global};
use std::sync::Wait;
use std::thread::Threads;
use travel_times::Observations;

/// What is left of an iteration that is over: what its day shows of travel times, and the memories with its scores.
#[derive(Drop)]
struct Iterated {
    known: Observations,
    memories: Vec<Memory>,
}

/// Keeps what is remembered after an iteration, and writes its line of the report.
fn save_and_report<O: Outputs, K: Keeper, G>(
    alloc: Global,
    run: &RunInput<G>,
    iteration: u32,
    seen: &SeenDay,
    memories: &[Memory],
    outputs: &mut O,
    keeper: &mut K,
) -> Result<(), EffectError>
    requires can { CanRun (run_rows run.now) memories.now }
    requires few { length seen.now.scores.items ≤ MAX_PERSONS }
    requires within { All (IsWithin MAX_SCORE) seen.now.scores.items }
    ensures performed { IsPerformed run.now.keeps
        (moment (O.written outputs.old) (K.kept keeper.old) (O.faults outputs.old) (K.faults keeper.old))
        (moment (O.written outputs.new) (K.kept keeper.new) (O.faults outputs.new) (K.faults keeper.new))
        (all_steps (saves (run_rows run.now) iteration memories.now)
        ++ byte_steps OutFile.Report
        (iteration_counts iteration seen.now.counts.events seen.now.counts.stuck (total seen.now.scores.items))) result }
    ensures keeper { run.now.keeps ≡ false → keeper.new ≡ keeper.old }
{
    match save(alloc, run, iteration, memories, outputs, keeper) {
        Ok(()) => write_line(alloc, iteration, seen.counts, &seen.scores, outputs, keeper),
        Err(error) => Err(error),
    }
}

/// Simulates the day of an iteration and writes it as it comes, and keeps what is remembered of it.
#[tactic(auto, unfolding(crate::specs::Days::memories_after))]
fn do_iteration<R: Threads + Wait + Sync, O: Outputs, K: Keeper, G: Gate>(
    rt: &R,
    alloc: Global,
    run: &RunInput<G>,
    iteration: u32,
    memories: Vec<Memory>,
    outputs: &mut O,
    keeper: &mut K,
) -> Result<Iterated, EffectError>
    requires { CanRun (run_rows run.now) memories.items }
    ensures performed { IsPerformed run.now.keeps
        (moment (O.written outputs.old) (K.kept keeper.old) (O.faults outputs.old) (K.faults keeper.old))
        (moment (O.written outputs.new) (K.kept keeper.new) (O.faults outputs.new) (K.faults keeper.new))
        (all_steps (iteration_effects (run_rows run.now) iteration memories.items)) result }
    ensures observed { IfOk result (λ one. AreObserved (length run.now.town.now.network.links)
        (events_of (run_rows run.now) iteration memories.items) one.known) }
    ensures memories { IfOk result (λ one. one.memories.items ≡ memories_after (run_rows run.now) iteration memories.items) }
    ensures can { IfOk result (λ one. CanRun (run_rows run.now) one.memories.items) }
    ensures keeper { run.now.keeps ≡ false → keeper.new ≡ keeper.old }
{
    let seen = match see_day(rt, alloc, run, iteration, &memories, outputs, keeper) {
        Ok(seen) => seen,
        Err(error) => return Err(error),
    };
    let Ok(memories) = scored(alloc, memories, &seen.scores) else {
        return Err(EffectError::NoMemory);
    };
    match save_and_report(alloc, run, iteration, &seen, &memories, outputs, keeper) {
        Ok(()) => {
            let SeenDay {
                scores: _scores,
                known,
                counts: _counts,
            } = seen;
            Ok(Iterated { known, memories })
        }
        Err(error) => Err(error),
    }
}

/// Does the last iteration, and the end.
fn finish<R: Threads + Wait + Sync, O: Outputs, K: Keeper, G: Gate>(
    rt: &R,
    alloc: Global,
    run: &RunInput<G>,
    memories: Vec<Memory>,
    outputs: &mut O,
    keeper: &mut K,
) -> Result<(), EffectError>
    requires { CanRun (run_rows run.now) memories.items }
    ensures performed { IsPerformed run.now.keeps
        (moment (O.written outputs.old) (K.kept keeper.old) (O.faults outputs.old) (K.faults keeper.old))
        (moment (O.written outputs.new) (K.kept keeper.new) (O.faults outputs.new) (K.faults keeper.new))
        (all_steps (iteration_effects (run_rows run.now) run.now.last_iteration memories.items)
        ++ all_steps (end_effects (run_rows run.now) (memories_after (run_rows run.now) run.now.last_iteration memories.items))) result }
    ensures keeper { run.now.keeps ≡ false → keeper.new ≡ keeper.old }
{
    match do_iteration(
        rt,
        alloc,
        run,
        run.last_iteration,
        memories,
        outputs,
        keeper,
    ) {
        Ok(one) => {
            let Iterated { known, memories } = one;
            drop(known);
            write_end(alloc, run, &memories, outputs, keeper)
        }
        Err(error) => Err(error),
    }
}

/// Does the iterations from one on that begins with these memories to the last one, and the end.
fn iterate_from<R: Threads + Wait + Sync, O: Outputs, K: Keeper, G: Gate>(
    rt: &R,
    alloc: Global,
    run: &RunInput<G>,
    first: u32,
    memories: Vec<Memory>,
    outputs: &mut O,
    keeper: &mut K,
) -> Result<(), EffectError>
    requires can { CanRun (run_rows run.now) memories.items }
    requires within { first ≤ run.now.last_iteration }
    ensures performed { IsPerformed run.now.keeps
        (moment (O.written outputs.old) (K.kept keeper.old) (O.faults outputs.old) (K.faults keeper.old))
        (moment (O.written outputs.new) (K.kept keeper.new) (O.faults outputs.new) (K.faults keeper.new))
        (all_steps (acts_behind (run_rows run.now) first memories.items (run.now.last_iteration - first))) result }
    ensures keeper { run.now.keeps ≡ false → keeper.new ≡ keeper.old }
{
    let Ok(adjacency) = Adjacency::of(alloc, &run.town.network) else {
        return Err(EffectError::NoMemory);
    };
    let mut memories = memories;
    for iteration in first..run.last_iteration {
        let one = match do_iteration(rt, alloc, run, iteration, memories, outputs, keeper) {
            Ok(one) => one,
            Err(error) => return Err(error),
        };
        let Iterated {
            known,
            memories: after,
        } = one;
        memories = match replanned(rt, alloc, run, &adjacency, iteration + 1, known, after) {
            Ok(new) => new,
            Err(_) => return Err(EffectError::NoMemory),
        };
    }
    finish(rt, alloc, run, memories, outputs, keeper)
}

/// What persons make, before the next iteration, of what was kept after this one: the day of the plans that they have chosen is
/// simulated once more for its travel times, and nothing of it is written.
fn begun_after<R: Threads + Wait + Sync, G: Gate>(
    rt: &R,
    alloc: Global,
    run: &RunInput<G>,
    iteration: u32,
    memories: Vec<Memory>,
) -> Result<Vec<Memory>, AllocError>
    requires can { CanRun (run_rows run.now) memories.items }
    requires within { iteration < run.now.last_iteration }
    ensures begun { IfOk result (λ new. new.items ≡ begun_after (run_rows run.now) iteration memories.items) }
    ensures can { IfOk result (λ new. CanRun (run_rows run.now) new.items) }
{
    let seen = look_at_day(rt, alloc, run, iteration, &memories)?;
    let SeenDay {
        scores: _scores,
        known,
        counts: _counts,
    } = seen;
    let adjacency = Adjacency::of(alloc, &run.town.network)?;
    let new = replanned(rt, alloc, run, &adjacency, iteration + 1, known, memories)?;
    Ok(new)
}

/// Goes on from what was kept after an iteration.
#[tactic(auto, unfolding(crate::specs::Continued::continued))]
fn go_on<R: Threads + Wait + Sync, O: Outputs, K: Keeper, G: Gate>(
    rt: &R,
    alloc: Global,
    run: &RunInput<G>,
    kept: u32,
    memories: Vec<Memory>,
    outputs: &mut O,
    keeper: &mut K,
) -> Result<(), EffectError>
    requires { CanRun (run_rows run.now) memories.items }
    ensures performed { IsPerformed run.now.keeps
        (moment (O.written outputs.old) (K.kept keeper.old) (O.faults outputs.old) (K.faults keeper.old))
        (moment (O.written outputs.new) (K.kept keeper.new) (O.faults outputs.new) (K.faults keeper.new))
        (all_steps (continued (run_rows run.now) kept memories.items)) result }
    ensures keeper { run.now.keeps ≡ false → keeper.new ≡ keeper.old }
{
    if kept >= run.last_iteration {
        return write_end(alloc, run, &memories, outputs, keeper);
    }
    match begun_after(rt, alloc, run, kept, memories) {
        Ok(begun) => iterate_from(rt, alloc, run, kept + 1, begun, outputs, keeper),
        Err(_) => Err(EffectError::NoMemory),
    }
}

/// Does a run: its iterations from 0 to the last, each with its day, whose events are written as they come, and its scores behind them;
/// then what the persons remember of it is kept, where the run keeps anything, and its line of the report is written. At the end the plans
/// are written. Before each iteration but the first one persons replan, by what they have seen on the day before, spread over as many
/// threads as there are processors. A day is computed as the run's `execution` says, the gate passed before each second of a partition.
///
/// With `after` the run goes on from memories that were kept after this iteration: their day is simulated once more for its travel
/// times, and the iterations behind it are done, and the end. Where the kept iteration is the last one or lies behind it, the end
/// alone is done.
///
/// At an `Err` a front of what is to be done was done, and nothing after it.
///
/// # Errors
///
/// `WriteFailed`: a write failed. `KeepFailed`: the keeper failed. `NoMemory`: memory was wanting, also the keeper's.
pub fn iterate<R: Threads + Wait + Sync, O: Outputs, K: Keeper, G: Gate>(
    rt: &R,
    alloc: Global,
    run: &RunInput<G>,
    after: Option<u32>,
    memories: Vec<Memory>,
    outputs: &mut O,
    keeper: &mut K,
) -> Result<(), EffectError>
    requires { CanRun (run_rows run.now) memories.items }
    ensures performed { IsPerformed run.now.keeps
        (moment (O.written outputs.old) (K.kept keeper.old) (O.faults outputs.old) (K.faults keeper.old))
        (moment (O.written outputs.new) (K.kept keeper.new) (O.faults outputs.new) (K.faults keeper.new))
        (all_steps (acts_after (run_rows run.now) after memories.items)) result }
    ensures keeper { run.now.keeps ≡ false → keeper.new ≡ keeper.old }
{
    match after {
        None => iterate_from(rt, alloc, run, 0, memories, outputs, keeper),
        Some(kept) => go_on(rt, alloc, run, kept, memories, outputs, keeper),
    }
}
