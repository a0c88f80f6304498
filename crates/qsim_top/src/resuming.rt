//! Going on from what is kept.

ghost use Rattle.std.specs.Prelude.{◌≡◌, Some, option_map, OnOk, OnErr, IfOk};
ghost use Rattle.edge_files.specs.{Causes.KeepHasCause, Keeping.Kept, Keeping.Stays, Keeping.StaysIfTold};
ghost use Rattle.iterations.specs.Performed.{moment};
ghost use Rattle.scenario.specs.Views.{scenario_view};
ghost use Rattle.qsim_top.specs.{Came.IsWorked, Held.held_view, Held.IsHeld, Held.IsResumed};

use crate::answers::Status;
use crate::outcomes::carry_out;
use crate::reporting::{foreign, nothing_kept};
use crate::running::{Remembered, go_on};
use command_line::Command;
use edge_files::{Gate, KeepFail, Keeper, KeptRow, Outputs};
use iterations::Execution;
use keep::{KeptError, memories_of};
use scenario::Scenario;
use std::alloc::Global;
use std::sync::Wait;
use std::thread::Threads;

/// What a keeper holds: an iteration, and the rows that were kept after it.
#[derive(Drop)]
pub struct Held {
    pub iteration: u32,
    pub rows: Vec<KeptRow>,
}

/// The rows that a keeper holds, with their iteration.
fn load_rows<K: Keeper>(alloc: Global, iteration: u32, keeper: &mut K) -> Result<Held, KeepFail>
    ensures held { IfOk result (λ held. (kept : Kept) → K.kept keeper.old ≡ Some (Some kept) → iteration ≡ kept.iteration
        → held_view held ≡ kept) }
    ensures ok { OnOk result (Stays (K.kept keeper.old) (K.kept keeper.new)) }
    ensures err { OnErr result (StaysIfTold (K.kept keeper.old) (K.kept keeper.new)) }
    ensures cause { KeepHasCause (K.faults keeper.old) (K.faults keeper.new) result }
{
    let mut rows = Vec::new(alloc);
    match keeper.load(&mut rows) {
        Ok(()) => Ok(Held { iteration, rows }),
        Err(fail) => Err(fail),
    }
}

/// What a keeper holds, if anything.
fn load<K: Keeper>(alloc: Global, keeper: &mut K) -> Result<Option<Held>, KeepFail>
    ensures held { IfOk result (λ held. IsHeld (K.kept keeper.old) (option_map held_view held)) }
    ensures ok { OnOk result (Stays (K.kept keeper.old) (K.kept keeper.new)) }
    ensures err { OnErr result (StaysIfTold (K.kept keeper.old) (K.kept keeper.new)) }
    ensures cause { KeepHasCause (K.faults keeper.old) (K.faults keeper.new) result }
{
    match keeper.last() {
        Ok(None) => Ok(None),
        Ok(Some(iteration)) => match load_rows(alloc, iteration, keeper) {
            Ok(held) => Ok(Some(held)),
            Err(fail) => Err(fail),
        },
        Err(fail) => Err(fail),
    }
}

/// Goes on from what a keeper held, or tells the first row that is foreign to the scenario.
fn resume_from<R: Threads + Wait + Sync, O: Outputs, K: Keeper, G: Gate>(
    rt: &R,
    alloc: Global,
    execution: Execution<G>,
    scenario: Scenario,
    held: Held,
    outputs: &mut O,
    keeper: &mut K,
) -> Status
    ensures { IsResumed (scenario_view scenario) (Some (held_view held)) result
        (moment (O.written outputs.old) (K.kept keeper.old) (O.faults outputs.old) (K.faults keeper.old))
        (moment (O.written outputs.new) (K.kept keeper.new) (O.faults outputs.new) (K.faults keeper.new)) }
{
    let Held { iteration, rows } = held;
    match memories_of(alloc, &rows, &scenario.town) {
        Ok(memories) => {
            drop(rows);
            let remembered = Remembered {
                iteration,
                memories,
            };
            go_on(rt, alloc, execution, scenario, remembered, outputs, keeper)
        }
        Err(KeptError::Foreign { row }) => {
            drop(rows);
            drop(scenario);
            carry_out(foreign(alloc, row), outputs, keeper)
        }
        Err(KeptError::NoMemory) => {
            drop(rows);
            drop(scenario);
            Status::NoMemory
        }
    }
}

/// Goes on with a scenario from what is kept, if anything is.
pub fn resume<R: Threads + Wait + Sync, O: Outputs, K: Keeper, G: Gate>(
    rt: &R,
    alloc: Global,
    execution: Execution<G>,
    scenario: Scenario,
    outputs: &mut O,
    keeper: &mut K,
) -> Status
    ensures { IsWorked Command.Resume (scenario_view scenario) result
        (moment (O.written outputs.old) (K.kept keeper.old) (O.faults outputs.old) (K.faults keeper.old))
        (moment (O.written outputs.new) (K.kept keeper.new) (O.faults outputs.new) (K.faults keeper.new)) }
{
    match load(alloc, keeper) {
        Ok(Some(held)) => resume_from(rt, alloc, execution, scenario, held, outputs, keeper),
        Ok(None) => {
            drop(scenario);
            carry_out(nothing_kept(alloc), outputs, keeper)
        }
        Err(KeepFail::Failed) => {
            drop(scenario);
            Status::KeepFault
        }
        Err(KeepFail::NoMemory) => {
            drop(scenario);
            Status::NoMemory
        }
    }
}
