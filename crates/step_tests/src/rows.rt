//! Partitions in a row.

ghost use Rattle.std.specs.{Option.option_to_list, Prelude.◌≡◌, Prelude.◌<◌, Prelude.◌≤◌, Prelude.◌++◌, Prelude.IfOk};
ghost use Rattle.step_tests.specs.Rows.{IsRow, lag_in, sends_to, number_of, border_from, before, behind, neighbours};

use events::Rows;
use std::alloc::{AllocError, Global};
use step_core::{Border, BorderList};

/// So many partitions in a row, each of which has the one before it and the one behind it for neighbours.
#[derive(Drop)]
pub(crate) struct Row {
    /// At most 64.
    pub(crate) count: u32,
    /// Lags go from 1 second to so many, at most 32.
    pub(crate) longest: u32,
    /// The seconds that each has to do.
    pub(crate) end: u32,
    /// The partition that finds no memory in second 50, if there is one.
    pub(crate) poor: Option<u32>,
    ghost sound: { IsRow count longest end },
}

/// A row of partitions in which nobody is poor.
pub(crate) fn in_row(count: u32, longest: u32, end: u32) -> Row
    requires { IsRow count longest end }
    ensures { (result.count ≡ count) × (result.longest ≡ longest) × (result.end ≡ end) }
{
    Row {
        count,
        longest,
        end,
        poor: None,
    }
}

/// The lag from one partition to another.
pub(crate) fn lag(longest: u32, from: u32, to: u32) -> u32
    requires { (1 ≤ longest) × (from < 64) × (to < 64) }
    ensures { result ≡ lag_in longest from to }
{
    1 + (3 * from + to) % longest
}

/// Whether one partition sends anything to another in a second: in two of five, and not to all of its neighbours in the same ones.
pub(crate) fn sends(from: u32, to: u32, second: u32) -> bool
    requires { (from < 64) × (to < 64) }
    ensures { result ≡ sends_to from to second }
{
    (u64::from(second) + u64::from(from) * u64::from(to)) % 5 < 2
}

/// What one partition sends to another in a second, where 0 is nothing.
pub(crate) fn number(from: u32, to: u32, second: u32) -> u64
    requires { (from < 64) × (to < 64) }
    ensures { result ≡ number_of from to second }
{
    if sends(from, to, second) {
        10_000 * u64::from(second) + 100 * u64::from(from) + u64::from(to)
    } else {
        0
    }
}

/// A neighbour of a partition, with the lag from it.
fn border_from(longest: u32, from: u32, to: u32) -> Border
    requires { (1 ≤ longest) × (from < 64) × (to < 64) }
    ensures { result ≡ border_from longest from to }
{
    Border {
        neighbour: from,
        lag: lag(longest, from, to),
    }
}

/// The neighbour before a partition.
fn before(run: &Row, number: u32) -> Option<Border>
    requires { number < run.now.count }
    ensures { result ≡ before run.now.longest number }
{
    if number > 0 {
        Some(border_from(run.longest, number - 1, number))
    } else {
        None
    }
}

/// The neighbour behind it.
fn behind(run: &Row, number: u32) -> Option<Border>
    requires { number < run.now.count }
    ensures { result ≡ behind run.now.count run.now.longest number }
{
    if number + 1 < run.count {
        Some(border_from(run.longest, number + 1, number))
    } else {
        None
    }
}

/// The rows with one more, if it is there.
fn with_border(mut rows: Vec<Border>, border: Option<Border>) -> Result<Vec<Border>, AllocError>
    ensures { IfOk result (λ more. more.items ≡ rows.items ++ option_to_list border) }
{
    match border {
        Some(border) => {
            rows.push(border)?;
            Ok(rows)
        }
        None => Ok(rows),
    }
}

/// The neighbours of a partition, with the lags from them.
pub(crate) fn neighbours_of(alloc: Global, run: &Row, number: u32) -> Result<BorderList, AllocError>
    requires { number < run.now.count }
    ensures { IfOk result (λ list. list ≡ neighbours run.now.count run.now.longest number) }
{
    let rows = with_border(Vec::new(alloc), before(run, number))?;
    let rows = with_border(rows, behind(run, number))?;
    Ok(Rows { rows })
}
