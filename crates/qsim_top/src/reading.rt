//! The files of a scenario, read whole one after the other or made, and the scenario that they give.

ghost use Rattle.std.specs.Prelude.{◌≡◌, ◌≤◌, ℕ, List, Some, true, Err, IfOk};
ghost use Rattle.command_line.specs.Commands.{IsInRange};
ghost use Rattle.edge_files.specs.{Causes.Rose, Inputs.OthersStay};
ghost use Rattle.scenario.specs.{Texts.Texts, Views.texts_of};
ghost use Rattle.qsim_top.specs.{Came.reads_files, Came.HasFiles, Contents.Contents, Contents.AreLeft, Contents.AreAlike, Contents.text_of};
ghost use Rattle.qsim_top.specs.{Contents.texts_in, Reading.IsGridOf, Reading.IsRead};
ghost use Rattle.workload.specs.Texts.{grid_texts};

use command_line::Command;
use edge_files::{Bytes, InFile, Inputs, ReadStop, SCENARIO_FILES, read_whole};
use limits::MAX_FILE_BYTES;
use scenario::{Files, Scenario, Stop, assemble};
use std::alloc::{AllocError, Global};
use std::thread::Threads;
use thiserror::Error;
use workload::{Grid, file_text};

/// Why the files were not read.
#[derive(Clone, Copy, Debug, PartialEq, Eq, Error)]
pub enum ReadError {
    #[error("a read failed")]
    Failed,
    #[error("no memory")]
    NoMemory,
}

/// Why there is no scenario.
#[derive(Clone, Copy, Debug, PartialEq, Eq, Error)]
pub enum NoScenario {
    #[error("a read failed")]
    ReadFailed,
    #[error("{0}")]
    Stopped(Stop),
}

/// All of a file, or nothing where it is too long.
#[tactic(auto, unfolding(crate::specs::Contents::text_of))]
fn read_text<I: Inputs>(
    alloc: Global,
    inputs: &mut I,
    file: InFile,
) -> Result<Option<Bytes>, ReadError>
    ensures text { IfOk result (λ text. (bytes : List ℕ) → I.left inputs.old file ≡ Some bytes → text ≡ text_of bytes) }
    ensures others { OthersStay (I.left inputs.old) (I.left inputs.new) file }
    ensures read { result ≡ Err ReadError.Failed → Rose (I.faults inputs.old) (I.faults inputs.new) }
    ensures later { I.faults inputs.old ≤ I.faults inputs.new }
{
    match read_whole(alloc, inputs, file, MAX_FILE_BYTES as u64) {
        Ok(rows) => Ok(Some(Bytes { rows })),
        Err(ReadStop::TooLong) => Ok(None),
        Err(ReadStop::Failed) => Err(ReadError::Failed),
        Err(ReadStop::NoMemory) => Err(ReadError::NoMemory),
    }
}

/// All files of a scenario, in their order.
fn read_files<I: Inputs>(alloc: Global, inputs: &mut I) -> Result<Files, ReadError>
    ensures files { IfOk result (λ files. (contents : Contents) → AreLeft (I.left inputs.old) contents
        → AreAlike (texts_of files) (texts_in contents)) }
    ensures read { result ≡ Err ReadError.Failed → Rose (I.faults inputs.old) (I.faults inputs.new) }
    ensures later { I.faults inputs.old ≤ I.faults inputs.new }
{
    let mut files = Files::new(alloc);
    for file in SCENARIO_FILES {
        let text = read_text(alloc, inputs, file)?;
        files.put(file, text);
    }
    Ok(files)
}

/// A file of a grid.
fn grid_file(alloc: Global, grid: &Grid, file: InFile) -> Result<Bytes, AllocError>
    ensures { IfOk result (λ text. Some text ≡ grid_texts grid.now.size grid.now.seed grid.now.last_iteration file) }
{
    let text = file_text(alloc, grid, file)?;
    Ok(Bytes {
        rows: text.into_bytes(),
    })
}

/// All files of a grid.
fn grid_files(alloc: Global, grid: &Grid) -> Result<Files, AllocError>
    ensures { IfOk result (λ files. AreAlike (texts_of files) (grid_texts grid.now.size grid.now.seed grid.now.last_iteration)) }
{
    let mut files = Files::new(alloc);
    for file in SCENARIO_FILES {
        let text = grid_file(alloc, grid, file)?;
        files.put(file, Some(text));
    }
    Ok(files)
}

/// The grid that a command makes, where it makes one.
fn grid_of(command: &Command) -> Option<Grid>
    requires { IsInRange command.now }
    ensures { IsGridOf command.now result }
{
    match command {
        Command::Generate {
            size,
            seed,
            last_iteration,
        } => Some(Grid {
            size: *size,
            seed: *seed,
            last_iteration: *last_iteration,
        }),
        Command::Run => None,
        Command::Resume => None,
        Command::Check => None,
        Command::Route { .. } => None,
    }
}

/// The files of a command: those of the grid that it makes, or all that it reads.
fn files_of<I: Inputs>(alloc: Global, command: &Command, inputs: &mut I) -> Result<Files, ReadError>
    requires in_range { IsInRange command.now }
    ensures files { IfOk result
        (λ files. (texts : Texts) → HasFiles command.now (I.left inputs.old) texts → texts_of files ≡ texts) }
    ensures read { result ≡ Err ReadError.Failed → Rose (I.faults inputs.old) (I.faults inputs.new) }
    ensures reads { result ≡ Err ReadError.Failed → reads_files command.now ≡ true }
    ensures later { I.faults inputs.old ≤ I.faults inputs.new }
{
    match grid_of(command) {
        Some(grid) => match grid_files(alloc, &grid) {
            Ok(files) => Ok(files),
            Err(AllocError) => Err(ReadError::NoMemory),
        },
        None => read_files(alloc, inputs),
    }
}

/// Reads, or makes, the files of a command, and then the scenario that they give.
pub fn scenario_for<R: Threads + Sync, I: Inputs>(
    rt: &R,
    alloc: Global,
    command: &Command,
    inputs: &mut I,
) -> Result<Scenario, NoScenario>
    requires in_range { IsInRange command.now }
    ensures scenario { (texts : Texts) → HasFiles command.now (I.left inputs.old) texts → IsRead result texts }
    ensures read { result ≡ Err NoScenario.ReadFailed → Rose (I.faults inputs.old) (I.faults inputs.new) }
    ensures reads { result ≡ Err NoScenario.ReadFailed → reads_files command.now ≡ true }
    ensures later { I.faults inputs.old ≤ I.faults inputs.new }
{
    match files_of(alloc, command, inputs) {
        Ok(files) => {
            let read = assemble(rt, alloc, &files);
            drop(files);
            match read {
                Ok(scenario) => Ok(scenario),
                Err(stop) => Err(NoScenario::Stopped(stop)),
            }
        }
        Err(ReadError::Failed) => Err(NoScenario::ReadFailed),
        Err(ReadError::NoMemory) => Err(NoScenario::Stopped(Stop::NoMemory)),
    }
}
