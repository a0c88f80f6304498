//! The work of the commands.

ghost use Rattle.std.specs.Prelude.{◌≡◌, false};
ghost use Rattle.command_line.specs.Commands.{IsInRange};
ghost use Rattle.iterations.specs.Performed.{moment};
ghost use Rattle.scenario.specs.Views.{scenario_view};
ghost use Rattle.qsim_top.specs.Came.{uses_keeper, IsWorked};

use crate::answers::Status;
use crate::outcomes::carry_out;
use crate::reporting::{check, route};
use crate::resuming::resume;
use crate::running::{run, run_grid};
use crate::texts::grid_line;
use command_line::Command;
use edge_files::{Gate, Keeper, Outputs};
use iterations::Execution;
use scenario::Scenario;
use std::alloc::Global;
use std::sync::Wait;
use std::thread::Threads;

/// Does the work of a command on a valid scenario.
pub fn work<R: Threads + Wait + Sync, O: Outputs, K: Keeper, G: Gate>(
    rt: &R,
    alloc: Global,
    command: Command,
    execution: Execution<G>,
    scenario: Scenario,
    outputs: &mut O,
    keeper: &mut K,
) -> Status
    requires in_range { IsInRange command }
    ensures done { IsWorked command (scenario_view scenario) result
        (moment (O.written outputs.old) (K.kept keeper.old) (O.faults outputs.old) (K.faults keeper.old))
        (moment (O.written outputs.new) (K.kept keeper.new) (O.faults outputs.new) (K.faults keeper.new)) }
    ensures keeper { uses_keeper command ≡ false → keeper.new ≡ keeper.old }
{
    match command {
        Command::Run => run(rt, alloc, execution, scenario, outputs, keeper),
        Command::Resume => resume(rt, alloc, execution, scenario, outputs, keeper),
        Command::Check => carry_out(check(alloc, scenario), outputs, keeper),
        Command::Route { from, to, second } => {
            let answer = route(alloc, scenario, from, to, second);
            carry_out(answer, outputs, keeper)
        }
        Command::Generate { size, seed, .. } => {
            let line = grid_line(alloc, size, seed);
            run_grid(rt, alloc, execution, line, scenario, outputs, keeper)
        }
    }
}
