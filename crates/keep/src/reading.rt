//! Kept rows, read back as memories.

ghost use Rattle.std.specs.Prelude.{◌≡◌, ◌<◌, ◌^◌, List, length, true, IfOk, MatchResult};
ghost use Rattle.plan_memory.specs.Memories.{MemoryRows};
ghost use Rattle.town.specs.Views.{rows_of};
ghost use Rattle.keep.specs.{Fitting.all_named, Fitting.AreRowsOf, Fitting.IsRead, declared.reading.KeptError.TheVariants.NoMemory};

use crate::steps::{ended, next_reading, start};
use edge_files::KeptRow;
use plan_memory::MemoryList;
use plan_text::know_names;
use std::alloc::{AllocError, Global};
use thiserror::Error;
use town::Town;

/// Why kept rows were not read.
#[derive(Clone, Copy, Debug, PartialEq, Eq, Error)]
pub enum KeptError {
    /// They are not of the persons and the plans of this town. The place is that of the first row with which it shows, counted from 0, or
    /// their number where rows are missing.
    #[error("the kept plans are not of this scenario, as row {row} shows")]
    Foreign { row: u32 },
    #[error("no memory")]
    NoMemory,
}

impl From<AllocError> for KeptError {
    ghost from_gives = { λ _ error. error ≡ NoMemory };

    fn from(_error: AllocError) -> KeptError {
        KeptError::NoMemory
    }
}

/// A place among rows as a number.
fn number(place: usize) -> u32
    requires { place < 2 ^ 32 }
    ensures { result ≡ place }
{
    place as u32
}

/// The memories of rows, or why there are none.
fn read_rows(alloc: Global, rows: &[KeptRow], town: &Town) -> Result<MemoryList, KeptError>
    ensures { IsRead (rows_of town.now) rows.now result }
{
    know_names(&town.book);
    let mut reading = start(alloc);
    for place in 0..rows.len() {
        let Some(next) = next_reading(alloc, town, reading, &rows[place])? else {
            return Err(KeptError::Foreign { row: number(place) });
        };
        reading = next;
    }
    let Some(memories) = ended(alloc, town, reading)? else {
        return Err(KeptError::Foreign {
            row: number(rows.len()),
        });
    };
    Ok(memories)
}

/// The memories of which these are the kept rows: each person of the town in turn has 1 to 6 rows, numbered from 0, of which one is the
/// chosen one, and the lines of each are those of a plan that fits the town.
pub fn memories_of(alloc: Global, rows: &[KeptRow], town: &Town) -> Result<MemoryList, KeptError>
    ensures read { IsRead (rows_of town.now) rows.now result }

    // What was kept of memories that fit the town is read back as these memories.
    ensures again { (memories : List MemoryRows) → AreRowsOf (rows_of town.now) rows.now memories →
        MatchResult result (λ read. read ≡ memories) (λ error. error ≡ NoMemory) }

    // They can be kept again.
    ensures persons { IfOk result (λ memories. length memories ≡ length town.now.book.persons) }
    ensures named { IfOk result (λ memories. all_named town.now.book memories ≡ true) }
{
    read_rows(alloc, rows, town)
}
