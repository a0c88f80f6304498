//! What the user is told where `clap` has not been asked.
use edge_files::FILE_NAMES;
use std::alloc::{AllocError, Global};

/// The commands.
const COMMANDS: &str = "qsim simulates days of traffic of the files in the current folder.

Usage: qsim run [--partitions N] [--workers N] [--stream]
                                    simulates the days and scores them; writes events.csv, scores.csv, plans_out.csv and a report
       qsim resume [--partitions N] [--workers N] [--stream]
                                    goes on with a run, behind the last iteration that kept.db holds; writes what run writes of the rest
       qsim check                   reads the files; reports their counts or their first fault
       qsim route FROM TO SECOND    reports the route of least arrival from a node to another, left in a second, at free speed
       qsim generate SIZE SEED [--last-iteration N] [--partitions N] [--workers N] [--stream]
                                    does what run does, with a generated town of SIZE times SIZE nodes; reads no file
With --partitions each day is computed in so many parts of the network, from 1 to 64, with --workers by so many threads, from 1 to 64:
choose some four partitions and one worker for each core. With --stream the lines of events.csv are written while a day runs, and a
day's events need not fit into memory. No byte of what a finished run has written depends on any of them.

Reads:";

/// What is kept, and where the report goes.
const KEEPS: &str = "
Keeps: what persons remember after each iteration of run and resume, in kept.db
The report goes to standard output. 'qsim COMMAND --help' tells more of a command.
";

/// How the program is used: its commands, and the files that they read and write.
pub fn usage(alloc: Global) -> Result<String, AllocError> {
    let mut text = String::from_str(alloc, COMMANDS)?;
    for (_, name) in FILE_NAMES {
        text.push_str(" ")?;
        text.push_str(name)?;
    }
    text.push_str(KEEPS)?;
    Ok(text)
}

/// A refusal of words that name no command.
pub fn no_command(alloc: Global) -> Result<String, AllocError> {
    let usage = usage(alloc)?;
    format!(in alloc; "error: no command is given\n\n{usage}")
}

/// A refusal of words whose command the program does not have.
pub fn not_a_command(alloc: Global, word: &str) -> Result<String, AllocError> {
    let usage = usage(alloc)?;
    format!(in alloc; "error: '{word}' is no command\n\n{usage}")
}
