//! What `clap` gives for the positions and options of a command.
ghost use Rattle.std.specs.Prelude.{◌≡◌, ◌≤◌, IfOk, codes};
ghost use Rattle.clap.specs.Words.{found_of, rows_of};
ghost use Rattle.limits.specs.declared.TheConstants.{MAX_PARTITIONS};
ghost use Rattle.learning.specs.declared.TheConstants.{LAST_ITERATION};
ghost use Rattle.workload.specs.declared.TheConstants.{LEAST_SIZE, MOST_SIZE};
ghost use Rattle.command_line.specs.Commands.{text_in, number_in, number_or, command_with, partitions_in, workers_in, streams_in};
ghost use Rattle.command_line.specs.Commands.{IsInRange};
ghost use Rattle.command_line.specs.Given.{HasNumber, HasLongNumber, MayHaveNumber, HasCount, HasSecond, HasGrid, HasExecution};

use crate::commands::{Command, CommandName};
use crate::{DEFAULT_LAST_ITERATION, DEFAULT_PARTITIONS, DEFAULT_WORKERS};
use clap::ArgMatches;
use edge_files::Bytes;
use spread::Spread;
use std::alloc::{AllocError, Global};

/// A copy of the word that was given for a position, and no bytes where none was.
fn word_for(alloc: Global, matches: &ArgMatches<'_>, id: &str) -> Result<Bytes, AllocError>
    ensures { IfOk result (λ word. word ≡ text_in id.now (rows_of (found_of matches.now))) }
{
    let Some(word) = matches.get_str(id) else {
        return Ok(Bytes::new(alloc));
    };
    let rows = Vec::from_slice(alloc, word.as_bytes())?;
    Ok(Bytes { rows })
}

/// The route that is asked for.
pub fn route_asked(alloc: Global, matches: &ArgMatches<'_>) -> Result<Command, AllocError>
    requires { HasSecond (found_of matches.now) }
    ensures command { IfOk result (λ command. command ≡ command_with CommandName.Route (rows_of (found_of matches.now))) }
    ensures in_range { IfOk result IsInRange }
{
    let Some(second) = matches.get_one::<u32>("SECOND") else {
        unreachable!()
    };
    let from = word_for(alloc, matches, "FROM")?;
    let to = word_for(alloc, matches, "TO")?;
    Ok(Command::Route { from, to, second })
}

/// The number of the last iteration that was given, or its default.
fn last_iteration_given(matches: &ArgMatches<'_>) -> u32
    requires { MayHaveNumber 0 LAST_ITERATION (codes "last-iteration") (found_of matches.now) }
    ensures number { result ≡ number_or (codes "last-iteration") DEFAULT_LAST_ITERATION (rows_of (found_of matches.now)) }
    ensures in_range { result ≤ LAST_ITERATION }
{
    let Some(number) = matches.get_one::<u32>("last-iteration") else {
        return DEFAULT_LAST_ITERATION;
    };
    number
}

/// A count that was given for an option, or its default.
fn count_given(matches: &ArgMatches<'_>, id: &str, default: u32) -> u32
    requires given { HasCount id.now (found_of matches.now) }
    requires fits { (1 ≤ default) × (default ≤ MAX_PARTITIONS) }
    ensures number { result ≡ number_or id.now default (rows_of (found_of matches.now)) }
    ensures in_range { (1 ≤ result) × (result ≤ MAX_PARTITIONS) }
{
    let Some(number) = matches.get_one::<u32>(id) else {
        return default;
    };
    number
}

/// In how many partitions, and by how many workers, the days are to be computed.
pub fn spread_asked(matches: &ArgMatches<'_>) -> Spread
    requires { HasExecution (found_of matches.now) }
    ensures partitions { result.partitions ≡ partitions_in (rows_of (found_of matches.now)) }
    ensures workers { result.workers ≡ workers_in (rows_of (found_of matches.now)) }
{
    Spread {
        partitions: count_given(matches, "partitions", DEFAULT_PARTITIONS),
        workers: count_given(matches, "workers", DEFAULT_WORKERS),
    }
}

/// Whether the events of a day are to be written while it runs.
pub fn stream_asked(matches: &ArgMatches<'_>) -> bool
    requires { HasExecution (found_of matches.now) }
    ensures { result ≡ streams_in (rows_of (found_of matches.now)) }
{
    matches.get_flag("stream")
}

/// The size of the grid that is asked for.
fn size_given(matches: &ArgMatches<'_>) -> u32
    requires { HasNumber LEAST_SIZE MOST_SIZE (codes "SIZE") (found_of matches.now) }
    ensures number { result ≡ number_in (codes "SIZE") (rows_of (found_of matches.now)) }
    ensures in_range { (LEAST_SIZE ≤ result) × (result ≤ MOST_SIZE) }
{
    let Some(number) = matches.get_one::<u32>("SIZE") else {
        unreachable!()
    };
    number
}

/// The number where the random words of the grid begin.
fn seed_given(matches: &ArgMatches<'_>) -> u64
    requires { HasLongNumber (codes "SEED") (found_of matches.now) }
    ensures { result ≡ number_in (codes "SEED") (rows_of (found_of matches.now)) }
{
    let Some(number) = matches.get_one::<u64>("SEED") else {
        unreachable!()
    };
    number
}

/// The grid that is asked for.
pub fn grid_asked(matches: &ArgMatches<'_>) -> Command
    requires { HasGrid (found_of matches.now) }
    ensures command { result ≡ command_with CommandName.Generate (rows_of (found_of matches.now)) }
    ensures in_range { IsInRange result }
{
    Command::Generate {
        size: size_given(matches),
        seed: seed_given(matches),
        last_iteration: last_iteration_given(matches),
    }
}
