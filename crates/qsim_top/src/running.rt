//! Runs of scenarios.

ghost use Rattle.std.specs.Prelude.{◌≡◌, ℕ, List, false, true, IfOk};
ghost use Rattle.edge_files.specs.{Effects.all_steps, World.byte_steps};
ghost use Rattle.iterations.specs.{Acts.acts, Continued.continued, Performed.moment, Performed.IsPerformed};
ghost use Rattle.keep.specs.Fitting.{AreMemories};
ghost use Rattle.scenario.specs.Views.{scenario_view};
ghost use Rattle.town.specs.Views.{rows_of};
ghost use Rattle.qsim_top.specs.Answer.{run_rows_of, run_answer, grid_answer, resumed_answer};
ghost use Rattle.qsim_top.specs.{Came.IsCarriedOut, Texts.grid_line};

use crate::answers::Status;
use crate::outcomes::status_after;
use edge_files::{Bytes, Effect, EffectError, Gate, Keeper, OutFile, Outputs, perform};
use iterations::{Execution, RunInput, iterate};
use plan_memory::MemoryList;
use scenario::Scenario;
use std::alloc::{AllocError, Global};
use std::sync::Wait;
use std::thread::Threads;

/// What persons remembered after an iteration.
#[derive(Drop)]
pub struct Remembered {
    pub iteration: u32,
    pub memories: MemoryList,
}

/// Does all iterations of a scenario, and its end.
fn iterate_all<R: Threads + Wait + Sync, O: Outputs, K: Keeper, G: Gate>(
    rt: &R,
    alloc: Global,
    execution: Execution<G>,
    scenario: Scenario,
    keeps: bool,
    outputs: &mut O,
    keeper: &mut K,
) -> Result<(), EffectError>
    ensures performed { IsPerformed keeps
        (moment (O.written outputs.old) (K.kept keeper.old) (O.faults outputs.old) (K.faults keeper.old))
        (moment (O.written outputs.new) (K.kept keeper.new) (O.faults outputs.new) (K.faults keeper.new))
        (all_steps (acts (run_rows_of keeps (scenario_view scenario)) (scenario_view scenario).memories)) result }
    ensures keeper { keeps ≡ false → keeper.new ≡ keeper.old }
{
    let Scenario {
        town,
        memories,
        tables,
        learning,
        last_iteration,
    } = scenario;
    let run = RunInput {
        town: &town,
        tables: &tables,
        learning,
        last_iteration,
        keeps,
        execution,
    };
    let outcome = iterate(rt, alloc, &run, None, memories.rows, outputs, keeper);
    drop(town);
    drop(tables);
    outcome
}

/// Runs a scenario: all its iterations, each of which is kept.
pub fn run<R: Threads + Wait + Sync, O: Outputs, K: Keeper, G: Gate>(
    rt: &R,
    alloc: Global,
    execution: Execution<G>,
    scenario: Scenario,
    outputs: &mut O,
    keeper: &mut K,
) -> Status
    ensures { IsCarriedOut true (run_answer (scenario_view scenario)) result
        (moment (O.written outputs.old) (K.kept keeper.old) (O.faults outputs.old) (K.faults keeper.old))
        (moment (O.written outputs.new) (K.kept keeper.new) (O.faults outputs.new) (K.faults keeper.new)) }
{
    let outcome = iterate_all(rt, alloc, execution, scenario, true, outputs, keeper);
    status_after(Status::Done, outcome)
}

/// Goes on with a scenario from what was remembered after an iteration: does the iterations behind it, each of which is kept, and the end.
pub fn go_on<R: Threads + Wait + Sync, O: Outputs, K: Keeper, G: Gate>(
    rt: &R,
    alloc: Global,
    execution: Execution<G>,
    scenario: Scenario,
    remembered: Remembered,
    outputs: &mut O,
    keeper: &mut K,
) -> Status
    requires fit { AreMemories (rows_of scenario.town) remembered.memories }
    ensures { IsCarriedOut true (resumed_answer (scenario_view scenario) remembered.iteration remembered.memories) result
        (moment (O.written outputs.old) (K.kept keeper.old) (O.faults outputs.old) (K.faults keeper.old))
        (moment (O.written outputs.new) (K.kept keeper.new) (O.faults outputs.new) (K.faults keeper.new)) }
{
    let Scenario {
        town,
        memories: first,
        tables,
        learning,
        last_iteration,
    } = scenario;
    drop(first);
    let Remembered {
        iteration,
        memories,
    } = remembered;
    let run = RunInput {
        town: &town,
        tables: &tables,
        learning,
        last_iteration,
        keeps: true,
        execution,
    };
    let outcome = iterate(
        rt,
        alloc,
        &run,
        Some(iteration),
        memories.rows,
        outputs,
        keeper,
    );
    drop(town);
    drop(tables);
    status_after(Status::Done, outcome)
}

/// Writes a line of the report, if there was memory for it.
fn write_line<O: Outputs, K: Keeper>(
    line: Result<Vec<u8>, AllocError>,
    outputs: &mut O,
    keeper: &mut K,
) -> Result<(), EffectError>
    ensures performed { (told : List ℕ) → IfOk line (λ text. text.items ≡ told) → IsPerformed false
        (moment (O.written outputs.old) (K.kept keeper.old) (O.faults outputs.old) (K.faults keeper.old))
        (moment (O.written outputs.new) (K.kept keeper.new) (O.faults outputs.new) (K.faults keeper.new))
        (byte_steps OutFile.Report told) result }
    ensures keeper { keeper.new ≡ keeper.old }
{
    let Ok(rows) = line else {
        return Err(EffectError::NoMemory);
    };
    let effects = [Effect::Write {
        file: OutFile::Report,
        text: Bytes { rows },
    }];
    perform(outputs, keeper, &effects)
}

/// Tells a grid of this size and seed and runs its scenario. Nothing is kept.
pub fn run_grid<R: Threads + Wait + Sync, O: Outputs, K: Keeper, G: Gate>(
    rt: &R,
    alloc: Global,
    execution: Execution<G>,
    line: Result<Vec<u8>, AllocError>,
    scenario: Scenario,
    outputs: &mut O,
    keeper: &mut K,
) -> Status
    ensures done { (size seed : ℕ) → IfOk line (λ text. text.items ≡ grid_line size seed)
        → IsCarriedOut false (grid_answer size seed (scenario_view scenario)) result
        (moment (O.written outputs.old) (K.kept keeper.old) (O.faults outputs.old) (K.faults keeper.old))
        (moment (O.written outputs.new) (K.kept keeper.new) (O.faults outputs.new) (K.faults keeper.new)) }
    ensures keeper { keeper.new ≡ keeper.old }
{
    match write_line(line, outputs, keeper) {
        Ok(()) => {
            let outcome = iterate_all(rt, alloc, execution, scenario, false, outputs, keeper);
            status_after(Status::Done, outcome)
        }
        Err(error) => {
            drop(scenario);
            status_after(Status::Done, Err(error))
        }
    }
}
