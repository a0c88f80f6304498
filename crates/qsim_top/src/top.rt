ghost use Rattle.std.specs.Prelude.{◌≡◌, ◌≤◌, map, ℕ, Bool, false, true, None, string_bytes};
ghost use Rattle.command_line.specs.{Cases.case_of, Cases.Work, Commands.IsInRange};
ghost use Rattle.edge_files.specs.{Causes.Rose, Keeping.StaysTold, World.outside};
ghost use Rattle.iterations.specs.Performed.{moment};
ghost use Rattle.scenario.specs.{FilesToScenario.ScenarioRows, FilesToScenario.scenario_fault, FilesToScenario.scenario_rows, Texts.Texts};
ghost use Rattle.qsim_top.specs.Answer.{report, reports_alone, is_of_words, OnlyReports};
ghost use Rattle.qsim_top.specs.Came.{uses_keeper, may_keep, computed_so, AnswersCase, IsCarriedOut};
ghost use Rattle.qsim_top.specs.Laws.{day_of, IsLawful, FollowsPlans, KeepsConflicts, GoesInAnyParts, ReportsRoutes, ResumesRuns};
ghost use Rattle.qsim_top.specs.{Texts.refused_line, declared.answers.Status.Status};

use crate::answers::Status;
use crate::laws::know_days;
use crate::outcomes::carry_out;
use crate::reading::{NoScenario, scenario_for};
use crate::reporting::{refused, report};
use crate::working::work;
use command_line::{Asked, Command, read_words};
use edge_files::{Gate, Inputs, Keeper, Outputs};
use iterations::Execution;
use scenario::{ScenarioFault, Stop};
use std::alloc::{AllocError, Global};
use std::sync::Wait;
use std::thread::Threads;

/// Tells the first fault of a scenario.
fn refuse<O: Outputs, K: Keeper>(
    alloc: Global,
    fault: ScenarioFault,
    outputs: &mut O,
    keeper: &mut K,
) -> Status
    ensures done { IsCarriedOut false (report Status.Refused (refused_line fault)) result
        (moment (O.written outputs.old) (K.kept keeper.old) (O.faults outputs.old) (K.faults keeper.old))
        (moment (O.written outputs.new) (K.kept keeper.new) (O.faults outputs.new) (K.faults keeper.new)) }
    ensures keeper { keeper.new ≡ keeper.old }
{
    carry_out(refused(alloc, fault), outputs, keeper)
}

/// Does the work of a command: all its files are there before any of them is checked.
fn do_work<R: Threads + Wait + Sync, I: Inputs, O: Outputs, K: Keeper, G: Gate>(
    rt: &R,
    alloc: Global,
    command: Command,
    execution: Execution<G>,
    inputs: &mut I,
    outputs: &mut O,
    keeper: &mut K,
) -> Status
    requires in_range { IsInRange command }
    ensures acts { AnswersCase
        (Work command execution.entry.spread.partitions execution.entry.spread.workers execution.entry.streams) (I.left inputs.old) result
        (outside (O.written outputs.old) (K.kept keeper.old))
        (outside (O.written outputs.new) (K.kept keeper.new)) }
    ensures read { result ≡ Status.ReadFault → Rose (I.faults inputs.old) (I.faults inputs.new) }
    ensures write { result ≡ Status.WriteFault → Rose (O.faults outputs.old) (O.faults outputs.new) }
    ensures keep { result ≡ Status.KeepFault → Rose (K.faults keeper.old) (K.faults keeper.new) }
    ensures told { result ≡ Status.WriteFault → StaysTold (K.kept keeper.old) (K.kept keeper.new) }
    ensures reports { reports_alone result ≡ true → OnlyReports (O.written outputs.old) (O.written outputs.new) }
    ensures read_later { I.faults inputs.old ≤ I.faults inputs.new }
    ensures write_later { O.faults outputs.old ≤ O.faults outputs.new }
    ensures keep_later { K.faults keeper.old ≤ K.faults keeper.new }
    ensures keeper { uses_keeper command ≡ false → keeper.new ≡ keeper.old }
    ensures unkept { uses_keeper command ≡ false → result ≡ Status.KeepFault → ⊥ }
    ensures unread { result ≡ Status.ReadFault → outputs.new ≡ outputs.old }
{
    match scenario_for(rt, alloc, &command, inputs) {
        Ok(scenario) => work(rt, alloc, command, execution, scenario, outputs, keeper),
        Err(NoScenario::Stopped(Stop::Fault(fault))) => refuse(alloc, fault, outputs, keeper),
        Err(NoScenario::Stopped(Stop::NoMemory)) => Status::NoMemory,
        Err(NoScenario::ReadFailed) => Status::ReadFault,
    }
}

/// Tells a text of the program's own.
fn tell<O: Outputs, K: Keeper>(
    alloc: Global,
    status: Status,
    text: String,
    outputs: &mut O,
    keeper: &mut K,
) -> Status
    requires { is_of_words status ≡ true }
    ensures done { IsCarriedOut false (report status (string_bytes text)) result
        (moment (O.written outputs.old) (K.kept keeper.old) (O.faults outputs.old) (K.faults keeper.old))
        (moment (O.written outputs.new) (K.kept keeper.new) (O.faults outputs.new) (K.faults keeper.new)) }
    ensures kept { result ≡ Status.KeepFault → ⊥ }
    ensures keeper { keeper.new ≡ keeper.old }
{
    let answer = report(alloc, status, text.into_bytes());
    carry_out(answer, outputs, keeper)
}

/// Does what the words ask for: `qsim run` simulates the days of a scenario, tells what each is worth to each person, keeps what they
/// remember after it, and writes the plans at the end; `qsim resume` goes on from what is kept; `qsim check` reads the scenario and reports
/// its counts or its first fault; `qsim route` reads it and reports the route of least arrival between two nodes; `qsim generate` makes a
/// grid and runs it, and reads and keeps nothing. The days of a run are computed in as many partitions of the network, and by as many
/// workers, as the words say; where they ask for it the events of a day are written while it runs.
///
/// The words are read first, then all files, then what is kept, and then all that the answer holds is done outside, what is written and
/// kept of an iteration as soon as it is over, or the events of its day as they come. Routes are searched, and persons replan, by as many
/// threads as there are processors, each of which is joined; so are those of the workers. The gate is passed before each second of a
/// partition of each day.
pub fn qsim<R: Threads + Wait + Sync, I: Inputs, O: Outputs, K: Keeper, G: Gate>(
    rt: &R,
    alloc: Global,
    words: &[String],
    inputs: &mut I,
    outputs: &mut O,
    keeper: &mut K,
    gate: &G,
) -> Status
    ensures acts { AnswersCase (case_of (map string_bytes words.now)) (I.left inputs.old) result
        (outside (O.written outputs.old) (K.kept keeper.old))
        (outside (O.written outputs.new) (K.kept keeper.new)) }

    // A fault has its cause outside.
    ensures read { result ≡ Status.ReadFault → Rose (I.faults inputs.old) (I.faults inputs.new) }
    ensures write { result ≡ Status.WriteFault → Rose (O.faults outputs.old) (O.faults outputs.new) }
    ensures keep { result ≡ Status.KeepFault → Rose (K.faults keeper.old) (K.faults keeper.new) }

    // A write that failed lets no keeper stop telling, and why nothing was done is told in the report alone.
    ensures told { result ≡ Status.WriteFault → StaysTold (K.kept keeper.old) (K.kept keeper.new) }
    ensures reports { reports_alone result ≡ true → OnlyReports (O.written outputs.old) (O.written outputs.new) }

    ensures unread { result ≡ Status.ReadFault → outputs.new ≡ outputs.old }
    ensures read_later { I.faults inputs.old ≤ I.faults inputs.new }
    ensures write_later { O.faults outputs.old ≤ O.faults outputs.new }
    ensures keep_later { K.faults keeper.old ≤ K.faults keeper.new }

    // Only what runs the scenario of files, or goes on with it, calls the keeper.
    ensures keeper { may_keep (case_of (map string_bytes words.now)) ≡ false → keeper.new ≡ keeper.old }
    ensures unkept { may_keep (case_of (map string_bytes words.now)) ≡ false → result ≡ Status.KeepFault → ⊥ }

    // What came is what the same words ask for in however many partitions, and by however many workers, days are computed, and whether
    // their events are written while they run or when they are over.
    ensures divided { (partitions workers : ℕ) (streams : Bool)
        → AnswersCase (computed_so partitions workers streams (case_of (map string_bytes words.now))) (I.left inputs.old) result
        (outside (O.written outputs.old) (K.kept keeper.old))
        (outside (O.written outputs.new) (K.kept keeper.new)) }

    // Of the day of every iteration of every scenario, and of the days and the routes of files without a fault.
    ensures lawful { (keeps : Bool) (scenario : ScenarioRows) (k : ℕ) → IsLawful (day_of keeps scenario k) }
    ensures planned { (keeps : Bool) (texts : Texts) (k : ℕ) → scenario_fault texts ≡ None
        → FollowsPlans (scenario_rows texts).town (day_of keeps (scenario_rows texts) k) }
    ensures conflicts { (keeps : Bool) (texts : Texts) (k : ℕ) → scenario_fault texts ≡ None
        → KeepsConflicts texts (day_of keeps (scenario_rows texts) k) }
    ensures parted { (keeps : Bool) (texts : Texts) (k : ℕ) → scenario_fault texts ≡ None
        → GoesInAnyParts (day_of keeps (scenario_rows texts) k) }
    ensures routed { (texts : Texts) → scenario_fault texts ≡ None → ReportsRoutes (scenario_rows texts) }

    // A run that was stopped behind a save and is resumed does what is left of it.
    ensures resumed { (texts : Texts) → scenario_fault texts ≡ None → ResumesRuns (scenario_rows texts) }
{
    know_days();
    match read_words(alloc, words) {
        Ok(
            Asked::Work {
                command,
                spread,
                streams,
            },
        ) => {
            let execution = Execution {
                spread,
                streams,
                gate,
            };
            do_work(rt, alloc, command, execution, inputs, outputs, keeper)
        }
        Ok(Asked::Help(text)) => tell(alloc, Status::Done, text, outputs, keeper),
        Ok(Asked::Refused(text)) => tell(alloc, Status::Usage, text, outputs, keeper),
        Err(AllocError) => Status::NoMemory,
    }
}
