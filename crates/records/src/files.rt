ghost use Rattle.std.specs.Prelude.{◌≡◌, ◌<◌, ◌^◌, length, map, drop, IfOk};
ghost use Rattle.csv.specs.Records.{fields_of};
ghost use Rattle.records.specs.{Files.begins_with, Files.head_reason, Files.optional_head_reason, Files.TellsHead, Rows.rows_of};

use crate::faults::fault;
use crate::fields::is_header;
use crate::rows::read_rows;
use csv::ByteRecord;
use edge_files::{Reason, RowStop};
use limits::MAX_FILE_BYTES;
use std::alloc::{AllocError, Global};

fn begins_with(rows: &[ByteRecord], names: &[&str]) -> bool
    ensures { result ≡ begins_with (map (λ n. n.now) names.now) (map fields_of rows.now) }
{
    match rows {
        [row, ..] => is_header(row, names),
        [] => false,
    }
}

/// The rows behind the header.
pub fn body(rows: &[ByteRecord]) -> &[ByteRecord]
    ensures { map fields_of result.now ≡ drop 1 (map fields_of rows.now) }
{
    match rows {
        [_, body @ ..] => body,
        [] => rows,
    }
}

/// The rows of a file that must have a header of these names and rows behind it.
///
/// A fault is that of row 0, also where the file has more than 2^28 bytes.
#[tactic(auto, unfolding(crate::specs::Files::head_reason))]
pub fn read_file(alloc: Global, bytes: &[u8], names: &[&str]) -> Result<Vec<ByteRecord>, RowStop>
    ensures head { TellsHead result (head_reason (map (λ n. n.now) names.now) bytes.now) }
    ensures rows { IfOk result (λ v. map fields_of v.items ≡ rows_of bytes.now) }
    ensures few { IfOk result (λ v. length v.items < 2 ^ 30) }
{
    if bytes.len() > MAX_FILE_BYTES {
        return Err(fault(0, Reason::TooLong));
    }
    let rows = match read_rows(alloc, bytes) {
        Ok(rows) => rows,
        Err(_) => return Err(RowStop::NoMemory),
    };
    if !begins_with(&rows, names) {
        return Err(fault(0, Reason::Header));
    }
    if rows.len() == 1 {
        return Err(fault(0, Reason::Empty));
    }
    Ok(rows)
}

/// The rows of a file that may be left out: one of no bytes has none, and any other must have a
/// header of these names.
///
/// A fault is that of row 0, also where the file has more than 2^28 bytes.
#[tactic(auto, unfolding(crate::specs::Files::optional_head_reason))]
pub fn read_optional_file(
    alloc: Global,
    bytes: &[u8],
    names: &[&str],
) -> Result<Vec<ByteRecord>, RowStop>
    ensures head { TellsHead result (optional_head_reason (map (λ n. n.now) names.now) bytes.now) }
    ensures rows { IfOk result (λ v. map fields_of v.items ≡ rows_of bytes.now) }
    ensures few { IfOk result (λ v. length v.items < 2 ^ 30) }
{
    if bytes.len() > MAX_FILE_BYTES {
        return Err(fault(0, Reason::TooLong));
    }
    let rows = match read_rows(alloc, bytes) {
        Ok(rows) => rows,
        Err(_) => return Err(RowStop::NoMemory),
    };
    if !bytes.is_empty() && !begins_with(&rows, names) {
        return Err(fault(0, Reason::Header));
    }
    Ok(rows)
}
