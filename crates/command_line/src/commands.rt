//! The commands. A command has a variant of `CommandName`, a name in `command_named`, a function that says what `clap` reads behind that
//! name (in definitions `simple_command`), and a variant of `Command` with what was given there.
ghost use Rattle.std.specs.Prelude.{◌≡◌, IfOk, codes};
ghost use Rattle.clap.specs.Words.{IsParsedFrom, app_of, found_of, new_app};
ghost use Rattle.clap.specs.declared.parser.matches.ArgMatches.{ArgMatches};
ghost use Rattle.command_line.specs.Commands.{command_named, position, second_position, size_position, seed_position};
ghost use Rattle.command_line.specs.Commands.{single_option, iteration_option, count_option, flag, simple_command};
ghost use Rattle.command_line.specs.Given.{AddsExecution, IsArgument, IsBare, HasSecond, HasGrid, HasExecution};

use clap::{Arg, ArgAction};
use edge_files::Bytes;
use learning::LAST_ITERATION;
use limits::{LAST_SECOND, MAX_PARTITIONS};
use std::alloc::{AllocError, Global};
use workload::{LEAST_SIZE, MOST_SIZE};

/// What the second word may name.
#[derive(Clone, Copy, Debug, PartialEq, Eq)]
pub enum CommandName {
    Run,
    Resume,
    Check,
    Route,
    Generate,
}

/// A command of the program, with what it is to work on.
#[derive(Drop)]
pub enum Command {
    /// Simulates the days, and keeps what the persons remember after each.
    Run,
    /// Goes on with a run, behind the last iteration after which anything was kept.
    Resume,
    /// Reads the files, and reports their counts or their first fault.
    Check,
    /// Reports the route of least arrival between two nodes, by their names, that is left in a second of at most
    /// `LAST_SECOND`.
    Route {
        from: Bytes,
        to: Bytes,
        second: u32,
    },
    /// Simulates the days of a generated grid: its size, `LEAST_SIZE` to `MOST_SIZE`, where its random words begin, and the number
    /// of its last iteration, at most `LAST_ITERATION`.
    Generate {
        size: u32,
        seed: u64,
        last_iteration: u32,
    },
}

/// The command that a word names.
#[tactic(auto, unfolding(crate::specs::Commands::command_named))]
pub fn command_named(word: &str) -> Option<CommandName>
    ensures { result ≡ command_named word.now }
{
    if word == "run" {
        Some(CommandName::Run)
    } else if word == "resume" {
        Some(CommandName::Resume)
    } else if word == "check" {
        Some(CommandName::Check)
    } else if word == "route" {
        Some(CommandName::Route)
    } else if word == "generate" {
        Some(CommandName::Generate)
    } else {
        None
    }
}

/// What a command tells of itself.
#[derive(Clone, Copy)]
struct Description<'a> {
    usage: &'a str,
    about: &'a str,
    notes: &'a str,
}

/// A command that takes no words yet.
fn described<'a>(alloc: Global, name: &'a str, description: Description<'a>) -> clap::Command<'a>
    ensures app { app_of result ≡ new_app name.entry.now }
    ensures bare { IsBare result }
{
    clap::Command::new(alloc, name)
        .override_usage(description.usage)
        .about(description.about)
        .after_help(description.notes)
}

/// An option for a number. `clap` refuses it where it is given twice.
fn single_option<'a>(alloc: Global, id: &'a str, help: &'a str) -> Arg<'a>
    ensures { IsArgument (single_option id.entry.now) result }
{
    Arg::new(alloc, id)
        .help(help)
        .long(id)
        .value_name("N")
        .action(ArgAction::Set)
}

/// An option for the number of an iteration, from 0 to `LAST_ITERATION`.
fn iteration_option<'a>(alloc: Global, id: &'a str, help: &'a str) -> Arg<'a>
    ensures { IsArgument (iteration_option id.entry.now) result }
{
    single_option(alloc, id, help).value_parser(clap::value_parser!(u32).range(
        0..=i64::from(LAST_ITERATION),
    ))
}

/// An option for how many partitions or workers there are, from 1 to `MAX_PARTITIONS`.
fn count_option<'a>(alloc: Global, id: &'a str, help: &'a str) -> Arg<'a>
    ensures { IsArgument (count_option id.entry.now) result }
{
    single_option(alloc, id, help).value_parser(clap::value_parser!(u32).range(
        1..=i64::from(MAX_PARTITIONS),
    ))
}

/// An option that has no value. `clap` refuses it where it is given twice.
fn flag<'a>(alloc: Global, id: &'a str, help: &'a str) -> Arg<'a>
    ensures { IsArgument (flag id.entry.now) result }
{
    Arg::new(alloc, id)
        .help(help)
        .long(id)
        .action(ArgAction::SetTrue)
        .value_parser(clap::value_parser!(bool))
}

/// A command that also takes the options which say how days are computed.
fn with_execution<'a>(
    alloc: Global,
    command: clap::Command<'a>,
) -> Result<clap::Command<'a>, AllocError>
    ensures { IfOk result (λ c. AddsExecution command.entry c) }
{
    let partitions = count_option(
        alloc,
        "partitions",
        "Among how many partitions the network is divided, from 1 to 64; 1 where it is not given. Choose some four for each core",
    );
    let workers = count_option(
        alloc,
        "workers",
        "How many workers compute them, each in a thread, from 1 to 64; 1 where it is not given. Choose one for each core",
    );
    let stream = flag(
        alloc,
        "stream",
        "Writes the lines of events.csv while a day runs, so that its events need not fit into memory",
    );
    let divided = command.arg(partitions)?;
    let spread = divided.arg(workers)?;
    let streamed = spread.arg(stream)?;
    Ok(streamed)
}

/// `qsim run`. Where `clap` takes its words, each number that is given is within its bounds.
pub fn run_command<'a>(alloc: Global) -> Result<clap::Command<'a>, AllocError>
    ensures app { IfOk result (λ c. app_of c ≡ simple_command CommandName.Run) }
    ensures execution { IfOk result (λ c. (m : ArgMatches) → IsParsedFrom c m → HasExecution (found_of m)) }
{
    let bare = described(
        alloc,
        "run",
        Description {
            usage: "qsim run [--partitions N] [--workers N] [--stream]",
            about: "Simulates the days of the files in the current folder.",
            notes: "Writes events.csv, scores.csv and plans_out.csv; the report goes to standard output. What persons remember after each \
                    iteration is kept in kept.db. No option changes a byte of what a finished run has written.",
        },
    );
    let command = with_execution(alloc, bare)?;
    Ok(command)
}

/// `qsim resume`. Where `clap` takes its words, each number that is given is within its bounds.
pub fn resume_command<'a>(alloc: Global) -> Result<clap::Command<'a>, AllocError>
    ensures app { IfOk result (λ c. app_of c ≡ simple_command CommandName.Resume) }
    ensures execution { IfOk result (λ c. (m : ArgMatches) → IsParsedFrom c m → HasExecution (found_of m)) }
{
    let bare = described(
        alloc,
        "resume",
        Description {
            usage: "qsim resume [--partitions N] [--workers N] [--stream]",
            about: "Goes on with a run of the files in the current folder, behind the last iteration that kept.db holds.",
            notes: "Writes events.csv, scores.csv and plans_out.csv of the iterations behind that one; the report goes to standard output. \
                    With which options the run was computed is not kept: it may go on with others.",
        },
    );
    let command = with_execution(alloc, bare)?;
    Ok(command)
}

/// `qsim check`.
pub fn check_command<'a>(alloc: Global) -> clap::Command<'a>
    ensures { app_of result ≡ simple_command CommandName.Check }
{
    described(
        alloc,
        "check",
        Description {
            usage: "qsim check",
            about: "Reads the files in the current folder, and reports their counts or their first fault.",
            notes: "Writes no file; the report goes to standard output.",
        },
    )
}

/// A position that must be given.
fn position<'a>(alloc: Global, id: &'a str, help: &'a str) -> Arg<'a>
    ensures { IsArgument (position id.entry.now) result }
{
    Arg::new(alloc, id)
        .help(help)
        .required(true)
        .action(ArgAction::Set)
}

/// A position for a second of the day, from 0 to `LAST_SECOND`.
fn second_position<'a>(alloc: Global, id: &'a str, help: &'a str) -> Arg<'a>
    ensures { IsArgument (second_position id.entry.now) result }
{
    position(alloc, id, help).value_parser(clap::value_parser!(u32).range(
        0..=i64::from(LAST_SECOND),
    ))
}

/// A position for the size of a grid, `LEAST_SIZE` to `MOST_SIZE`.
fn size_position<'a>(alloc: Global, id: &'a str, help: &'a str) -> Arg<'a>
    ensures { IsArgument (size_position id.entry.now) result }
{
    position(alloc, id, help).value_parser(clap::value_parser!(u32).range(
        i64::from(LEAST_SIZE)..=i64::from(MOST_SIZE),
    ))
}

/// A position for any number of 64 bits.
fn seed_position<'a>(alloc: Global, id: &'a str, help: &'a str) -> Arg<'a>
    ensures { IsArgument (seed_position id.entry.now) result }
{
    position(alloc, id, help).value_parser(clap::value_parser!(u64))
}

/// `qsim route FROM TO SECOND`. Where `clap` takes its words, a number is given for the second.
pub fn route_command<'a>(alloc: Global) -> Result<clap::Command<'a>, AllocError>
    ensures app { IfOk result (λ c. app_of c ≡ simple_command CommandName.Route) }
    ensures second { IfOk result (λ c. (m : ArgMatches) → IsParsedFrom c m → HasSecond (found_of m)) }
{
    let from = position(
        alloc,
        "FROM",
        "The node where the route begins, by its name",
    );
    let to = position(alloc, "TO", "The node where it ends, by its name");
    let second = second_position(
        alloc,
        "SECOND",
        "The second of the day in which it is left; two days are the most",
    );
    let bare = described(
        alloc,
        "route",
        Description {
            usage: "qsim route FROM TO SECOND",
            about: "Reports the route of least arrival between two nodes at the links' free speed.",
            notes: "Writes no file; the report goes to standard output. Where a name begins with '-', the words stand behind '--', \
                    as in 'qsim route -- -a b 0'.",
        },
    );
    let command = bare.arg(from)?.arg(to)?.arg(second)?;
    Ok(command)
}

/// `qsim generate SIZE SEED`. Where `clap` takes its words, numbers within the bounds of a grid are given, and each other number that is
/// given is within its own.
pub fn generate_command<'a>(alloc: Global) -> Result<clap::Command<'a>, AllocError>
    ensures app { IfOk result (λ c. app_of c ≡ simple_command CommandName.Generate) }
    ensures numbers { IfOk result (λ c. (m : ArgMatches) → IsParsedFrom c m → HasGrid (found_of m) × HasExecution (found_of m)) }
{
    let size = size_position(
        alloc,
        "SIZE",
        "How many rows and columns of nodes the grid has, from 3 to 100",
    );
    let seed = seed_position(
        alloc,
        "SEED",
        "Where all random words begin, from 0 to 18446744073709551615",
    );
    let last_iteration = iteration_option(
        alloc,
        "last-iteration",
        "The number of the last iteration, from 0 to 1000; 1 where it is not given",
    );
    let bare = described(
        alloc,
        "generate",
        Description {
            usage: "qsim generate SIZE SEED [--last-iteration N] [--partitions N] [--workers N] [--stream]",
            about: "Makes a town of SIZE times SIZE nodes, and simulates its days.",
            notes: "Reads no file; writes events.csv, scores.csv and plans_out.csv; the report goes to standard output.",
        },
    );
    let grid = bare.arg(size)?.arg(seed)?.arg(last_iteration)?;
    let command = with_execution(alloc, grid)?;
    Ok(command)
}
