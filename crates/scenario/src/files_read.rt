//! The files that are read over a network, one after the other.

ghost use Rattle.std.specs.Prelude.{◌≡◌, ◌<◌, ◌^◌, length, IfOk, All};
ghost use Rattle.plans.specs.{Progress.IsSound, Read.file_rows_of, Values.plans_fault, Values.file_rows};
ghost use Rattle.records.specs.Files.{body_of};
ghost use Rattle.signals.specs.{Signals.signals_fault, Signals.signal_rows_of, Views.signal_view};
ghost use Rattle.scenario.specs.{Faults.Tells, Faults.TellsFile, FilesToScenario.read_fault, FilesToScenario.read_on};
ghost use Rattle.scenario.specs.{FilesToScenario.read_view, FilesToScenario.IsReadOn, Views.texts_of};

use crate::faults::Stop;
use crate::files::Files;
use crate::reading::{bytes_of, with_file};
use crate::schedule_read::read_schedule;
use crate::schedules::Schedule;
use edge_files::InFile;
use events::Names;
use plans::{PlanFile, read_plans};
use signals::{Signals, read_signals};
use std::alloc::Global;

/// What was read over a network.
#[derive(Drop)]
pub struct FilesRead {
    pub plans: PlanFile,
    pub schedule: Schedule,
    pub signals: Signals,
}

/// What plans.csv gives over links of these names and ends, or its first fault.
#[tactic(auto, using(crate::proofs::Told::of_file))]
fn plans_in(
    alloc: Global,
    files: &Files,
    links: &Names,
    ends: &[(u32, u32)],
) -> Result<PlanFile, Stop>
    requires { length ends.now ≡ length links.now }
    ensures read { TellsFile file_rows_of result (texts_of files.now) InFile.Plans (plans_fault links.now ends.now) (file_rows links.now) }
    ensures sound { IfOk result (λ file. IsSound links.now ends.now (file_rows_of file)) }
    ensures starts { IfOk result (λ file. All (λ row. row < 2 ^ 30) file.starts) }
{
    match bytes_of(files, InFile::Plans) {
        Ok(bytes) => with_file(InFile::Plans, read_plans(alloc, bytes, links, ends)),
        Err(error) => Err(error),
    }
}

/// What signals.csv gives over links of these names and ends, or its first fault.
#[tactic(auto, using(crate::proofs::Told::of_file))]
fn signals_in(
    alloc: Global,
    files: &Files,
    links: &Names,
    ends: &[(u32, u32)],
) -> Result<Signals, Stop>
    ensures read { TellsFile signal_view result (texts_of files.now) InFile.Signals (signals_fault links.now ends.now)
        (λ bytes. signal_rows_of links.now (body_of bytes)) }
    ensures each { IfOk result (λ signals. length signals.greens ≡ length links.now) }
{
    match bytes_of(files, InFile::Signals) {
        Ok(bytes) => with_file(InFile::Signals, read_signals(alloc, bytes, links, ends)),
        Err(error) => Err(error),
    }
}

/// What the files give that are read over links of these names and ends, or their first fault.
#[tactic(auto, using(crate::proofs::Told::in_turn), unfolding(crate::specs::Faults::TellsFile))]
pub fn read_over(
    alloc: Global,
    files: &Files,
    links: &Names,
    ends: &[(u32, u32)],
) -> Result<FilesRead, Stop>
    requires { length ends.now ≡ length links.now }
    ensures read { Tells read_view result (read_fault links.now ends.now (texts_of files.now)) (read_on links.now (texts_of files.now)) }
    ensures fitting { IfOk result (λ read. IsReadOn (length links.now) links.now ends.now (read_view read)) }
{
    let plans = match plans_in(alloc, files, links, ends) {
        Ok(plans) => plans,
        Err(error) => return Err(error),
    };
    let schedule = match read_schedule(alloc, files, links, ends) {
        Ok(schedule) => schedule,
        Err(error) => {
            drop(plans);
            return Err(error);
        }
    };
    match signals_in(alloc, files, links, ends) {
        Ok(signals) => Ok(FilesRead {
            plans,
            schedule,
            signals,
        }),
        Err(error) => {
            drop(plans);
            drop(schedule);
            Err(error)
        }
    }
}
