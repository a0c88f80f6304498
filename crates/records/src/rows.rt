ghost use Rattle.std.specs.Prelude.{◌≡◌, ◌≤◌, ◌+◌, IfOk, map, length};
ghost use Rattle.csv.specs.Records.{fields_of};
ghost use Rattle.records.specs.Rows.{rows_of};

use csv::{ByteRecord, ReaderBuilder};
use std::alloc::{AllocError, Global};

/// The rows of a file, the header among them: a function of the bytes alone.
///
/// Rows of any length and bytes that are no UTF-8 are read as they are, and a byte order mark at
/// the front is left out. The only error is want of memory.
pub fn read_rows(alloc: Global, bytes: &[u8]) -> Result<Vec<ByteRecord>, AllocError>
    ensures rows { IfOk result (λ v. map fields_of v.items ≡ rows_of bytes.now) }
    ensures few { IfOk result (λ v. length v.items ≤ length bytes.now + 1) }
{
    let reader = ReaderBuilder::new()
        .has_headers(false)
        .flexible(true)
        .from_reader(alloc, bytes);
    let mut rows = Vec::new(alloc);
    for row in reader.into_byte_records() {
        let Ok(row) = row else {
            return Err(AllocError);
        };
        rows.push(row)?;
    }
    Ok(rows)
}
