//! The program: the files of the current folder, standard output for the report, and kept.db for what a run keeps.
#![tactic(auto)]

use folder_files::StandardStreams;
use in_folder::{Status, qsim_in_folder};
use std::alloc::{AllocError, Global};
use std::env;
use std::process::ExitCode;
use std::rt::Env;

/// The words of the command line; none where they cannot be read at all, as where one is no UTF-8.
fn words(alloc: Global, rt: &(impl Env + AllocGlobal)) -> Result<Vec<String>, AllocError> {
    match env::args(rt) {
        Ok(words) => words.collect(alloc),
        Err(_) => Ok(Vec::new(alloc)),
    }
}

/// The files tell on standard error what went wrong with them; here it is want of memory.
fn main(rt: HostRuntime) -> ExitCode {
    let _streams = StandardStreams::hold(&rt);
    let status = match words(rt.alloc(), &rt) {
        Ok(words) => qsim_in_folder(&rt, &rt, &words),
        Err(_) => Status::NoMemory,
    };
    if status == Status::NoMemory {
        let _ = rt.eprintln("qsim: out of memory");
    }
    ExitCode::from(status.code())
}
