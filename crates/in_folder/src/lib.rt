//! The program in the current folder: its files, standard output for the report, and `kept.db` for what a run keeps.
#![tactic(auto)]

use edge_files::OpenGate;
use folder_files::{FileInputs, FileOutputs};
use folder_keeper::FolderKeeper;
pub use qsim_top::Status;
use qsim_top::qsim;
use std::sync::Wait;
use std::thread::Threads;

/// Does what the words ask for with the files of the current folder, by the threads of a runtime. What a run keeps goes into `kept.db`,
/// which is closed at the end. No contract can say what files hold: `qsim_top::qsim` tells what is done with them.
pub fn qsim_in_folder<R: Threads + Wait + Sync>(
    rt: &R,
    folder: &HostRuntime,
    words: &[String],
) -> Status {
    let mut inputs = FileInputs::new(folder);
    let mut outputs = FileOutputs::new(folder);
    let mut keeper = FolderKeeper::new(folder);
    let gate = OpenGate::new();
    let status = qsim(
        rt,
        folder.alloc(),
        words,
        &mut inputs,
        &mut outputs,
        &mut keeper,
        &gate,
    );
    keeper.close();
    status
}
