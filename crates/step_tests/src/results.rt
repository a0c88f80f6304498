//! What partitions in a row are to have got at the end.

ghost use Rattle.std.specs.Prelude.{◌<◌};

use crate::counters::Counter;
use crate::rows::{Row, lag, sends};

/// How many numbers a partition of a row is to have got from a neighbour at the end: as many as that one sent in seconds that lie so far
/// back as the lag.
fn due_from(run: &Row, from: u32, number: u32) -> u32
    requires { (from < run.now.count) × (number < run.now.count) }
{
    let mut due = 0u32;
    for second in 0..run.end.saturating_sub(lag(run.longest, from, number)) {
        if sends(from, number, second) {
            due = due.saturating_add(1);
        }
    }
    due
}

/// How many it is to have got from both.
fn due(run: &Row, number: u32) -> u64
    requires { number < run.now.count }
{
    let before = if number > 0 {
        due_from(run, number - 1, number)
    } else {
        0
    };
    let behind = if number + 1 < run.count {
        due_from(run, number + 1, number)
    } else {
        0
    };
    u64::from(before) + u64::from(behind)
}

/// Whether these are all partitions of a row, in order, at the end, and each got all numbers that it was to get, each of them right.
pub(crate) fn are_right(run: &Row, parts: &[Counter]) -> bool {
    if parts.len() != run.count as usize {
        return false;
    }
    for number in 0..run.count {
        let part = &parts[number as usize];
        if part.number != number
            || part.seconds != run.end
            || part.heard != due(run, number)
            || part.wrong != 0
        {
            return false;
        }
    }
    true
}
