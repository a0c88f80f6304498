ghost use Rattle.std.specs.Prelude.{◌≡◌, ◌≢◌, ◌∷◌, List, IfOk, map, string_bytes};
ghost use Rattle.clap.specs.Words.{IsParsedFrom, Row, app_of, found_of, kind_of, rows_of};
ghost use Rattle.clap.specs.declared.parser.matches.ArgMatches.{ArgMatches};
ghost use Rattle.command_line.specs.Cases.{asks_for_help, asked_case, case_of, kind_case, simple_case, simulation, work_with, AsksInRange};
ghost use Rattle.command_line.specs.{Commands.simple_command, Commands.IsInRange, Given.HasExecution};

use crate::commands::{
    Command, CommandName, check_command, command_named, generate_command, resume_command,
    route_command, run_command,
};
use crate::given::{grid_asked, route_asked, spread_asked, stream_asked};
use crate::usage::{no_command, not_a_command, usage};
use crate::{DEFAULT_PARTITIONS, DEFAULT_WORKERS};
use clap::error::ErrorKind;
use clap::{ArgMatches, Error};
use spread::Spread;
use std::alloc::{AllocError, Global};

/// What words ask for, with the text for the user where no command is to work.
#[derive(Drop)]
pub enum Asked {
    /// The work of a command, and how its days are to be computed: in how many partitions, by how many workers, and whether their events
    /// are written while they run.
    Work {
        command: Command,
        spread: Spread,
        streams: bool,
    },
    /// To be told how the program, or a command, is used.
    Help(String),
    /// Nothing that the program has: the text says what is wrong.
    Refused(String),
}

/// Whether the word asks how the program is used.
fn asks_for_help(word: &str) -> bool
    ensures { result ≡ asks_for_help word.now }
{
    word == "-h" || word == "--help"
}

/// What `clap` tells the user in place of matches.
fn told(alloc: Global, error: &Error) -> Result<Asked, AllocError>
    ensures case { IfOk result (λ asked. (kind_of error.now ≢ ErrorKind.OutOfMemory)
        × (asked_case asked ≡ kind_case (kind_of error.now))) }
    ensures in_range { IfOk result AsksInRange }
{
    let text = format!(in alloc; "{error}")?;
    match error.kind() {
        ErrorKind::OutOfMemory => Err(AllocError),
        ErrorKind::DisplayHelp => Ok(Asked::Help(text)),
        _ => Ok(Asked::Refused(text)),
    }
}

/// The spread of a command that simulates no day.
fn undivided() -> Spread
    ensures partitions { result.partitions ≡ DEFAULT_PARTITIONS }
    ensures workers { result.workers ≡ DEFAULT_WORKERS }
{
    Spread {
        partitions: DEFAULT_PARTITIONS,
        workers: DEFAULT_WORKERS,
    }
}

/// What the words of `check` ask for.
fn read_check(alloc: Global, words: &[&str]) -> Result<Asked, AllocError>
    ensures case { IfOk result (λ asked. asked_case asked ≡ simple_case CommandName.Check (map (λ s. s.now) words.now)) }
    ensures in_range { IfOk result AsksInRange }
{
    let parser = check_command(alloc);
    match parser.try_get_matches_from(words) {
        Ok(_) => Ok(Asked::Work {
            command: Command::Check,
            spread: undivided(),
            streams: false,
        }),
        Err(error) => told(alloc, &error),
    }
}

/// The work of a command that simulates days, computed as its words say.
fn simulation_asked(command: Command, matches: &ArgMatches<'_>) -> Asked
    requires { HasExecution (found_of matches.now) }
    ensures case { asked_case result ≡ simulation command (rows_of (found_of matches.now)) }
    ensures in_range { IsInRange command → AsksInRange result }
{
    let spread = spread_asked(matches);
    let streams = stream_asked(matches);
    Asked::Work {
        command,
        spread,
        streams,
    }
}

/// What words ask for, by the parser of a command that simulates days and takes no words but those which say how they are computed.
fn read_simulation<'a>(
    alloc: Global,
    name: CommandName,
    command: Command,
    parser: clap::Command<'a>,
    words: &'a [&str],
) -> Result<Asked, AllocError>
    requires app { app_of parser ≡ simple_command name }
    requires execution { (m : ArgMatches) → IsParsedFrom parser m → HasExecution (found_of m) }
    requires work { (rows : List Row) → work_with name rows ≡ simulation command rows }
    requires in_range { IsInRange command }
    ensures case { IfOk result (λ asked. asked_case asked ≡ simple_case name (map (λ s. s.now) words.now)) }
    ensures in_range { IfOk result AsksInRange }
{
    match parser.try_get_matches_from(words) {
        Ok(matches) => Ok(simulation_asked(command, &matches)),
        Err(error) => told(alloc, &error),
    }
}

/// What the words of `run` ask for.
fn read_run(alloc: Global, words: &[&str]) -> Result<Asked, AllocError>
    ensures case { IfOk result (λ asked. asked_case asked ≡ simple_case CommandName.Run (map (λ s. s.now) words.now)) }
    ensures in_range { IfOk result AsksInRange }
{
    let parser = run_command(alloc)?;
    read_simulation(alloc, CommandName::Run, Command::Run, parser, words)
}

/// What the words of `resume` ask for.
fn read_resume(alloc: Global, words: &[&str]) -> Result<Asked, AllocError>
    ensures case { IfOk result (λ asked. asked_case asked ≡ simple_case CommandName.Resume (map (λ s. s.now) words.now)) }
    ensures in_range { IfOk result AsksInRange }
{
    let parser = resume_command(alloc)?;
    read_simulation(alloc, CommandName::Resume, Command::Resume, parser, words)
}

/// What the words of `route` ask for.
fn read_route(alloc: Global, words: &[&str]) -> Result<Asked, AllocError>
    ensures case { IfOk result (λ asked. asked_case asked ≡ simple_case CommandName.Route (map (λ s. s.now) words.now)) }
    ensures in_range { IfOk result AsksInRange }
{
    let parser = route_command(alloc)?;
    match parser.try_get_matches_from(words) {
        Ok(matches) => {
            let command = route_asked(alloc, &matches)?;
            Ok(Asked::Work {
                command,
                spread: undivided(),
                streams: false,
            })
        }
        Err(error) => told(alloc, &error),
    }
}

/// What the words of `generate` ask for.
fn read_generate(alloc: Global, words: &[&str]) -> Result<Asked, AllocError>
    ensures case { IfOk result (λ asked. asked_case asked ≡ simple_case CommandName.Generate (map (λ s. s.now) words.now)) }
    ensures in_range { IfOk result AsksInRange }
{
    let parser = generate_command(alloc)?;
    match parser.try_get_matches_from(words) {
        Ok(matches) => {
            let command = grid_asked(&matches);
            Ok(simulation_asked(command, &matches))
        }
        Err(error) => told(alloc, &error),
    }
}

/// What the program's name and the words behind the command's name ask for.
fn read_simple(alloc: Global, name: CommandName, words: &[&str]) -> Result<Asked, AllocError>
    ensures case { IfOk result (λ asked. asked_case asked ≡ simple_case name (map (λ s. s.now) words.now)) }
    ensures in_range { IfOk result AsksInRange }
{
    match name {
        CommandName::Run => read_run(alloc, words),
        CommandName::Resume => read_resume(alloc, words),
        CommandName::Check => read_check(alloc, words),
        CommandName::Route => read_route(alloc, words),
        CommandName::Generate => read_generate(alloc, words),
    }
}

/// The words without the command's name.
fn without_command<'a>(
    alloc: Global,
    program: &'a String,
    others: &'a [String],
) -> Result<Vec<&'a str>, AllocError>
    ensures { IfOk result (λ v. map (λ s. s.now) v.items ≡ string_bytes program.now ∷ map string_bytes others.now) }
{
    let mut kept = Vec::new(alloc);
    kept.push(program.as_str())?;
    for word in others {
        kept.push(word.as_str())?;
    }
    Ok(kept)
}

/// Reads the words of the command line, the program's name first.
///
/// The numbers of a command are within their bounds. Fails only for want of memory.
#[tactic(auto, unfolding(crate::specs::Cases::case_of))]
pub fn read_words(alloc: Global, words: &[String]) -> Result<Asked, AllocError>
    ensures case { IfOk result (λ asked. asked_case asked ≡ case_of (map string_bytes words.now)) }
    ensures in_range { IfOk result AsksInRange }
{
    let [program, second, others @ ..] = words else {
        return Ok(Asked::Refused(no_command(alloc)?));
    };
    if asks_for_help(second) {
        return Ok(Asked::Help(usage(alloc)?));
    }
    let Some(name) = command_named(second) else {
        return Ok(Asked::Refused(not_a_command(alloc, second)?));
    };
    let kept = without_command(alloc, program, others)?;
    read_simple(alloc, name, &kept)
}
