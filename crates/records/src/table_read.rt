//! Files of rows of which each has its name in the first field.

ghost use Rattle.std.specs.Prelude.{◌≡◌, ◌<◌, ◌^◌, ℕ, List, Option, None, true, length, map, IfOk, OnOk};
ghost use Rattle.csv.specs.Records.{fields_of};
ghost use Rattle.edge_files.specs.declared.reasons.Reason.{Reason};
ghost use Rattle.events.specs.Names.{number_of};
ghost use Rattle.records.specs.{Faults.unless, Faults.Answers, Fields.field, Fields.holds_name, Fields.column, Files.TellsHead};
ghost use Rattle.records.specs.{Files.body_of, Reading.body_fault, Reading.file_fault, Rows.Row, Rows.rows_of, Tables.table_lists};

use crate::adding::add_row;
use crate::faults::fault;
use crate::fields::field;
use crate::files::body;
use crate::table::Table;
use csv::ByteRecord;
use edge_files::{Reason, RowStop};
use events::Names;
use std::alloc::Global;

/// What a file and its rows say, each row by itself and by the names of the rows before it.
pub trait RowReader<T> {
    /// The reason against row 0, by the bytes of the file.
    ghost head: { Self → List ℕ → Option Reason };

    /// The least reason against a row, by the names of the rows before it.
    ghost reason: { Self → List (List ℕ) → Row → Option Reason };

    /// The value of a row against which there is no reason.
    ghost value: { Self → Row → T };

    /// All rows of the file, the header among them, or the reason against row 0.
    fn read_rows(&self, alloc: Global, bytes: &[u8]) -> Result<Vec<ByteRecord>, RowStop>
        ensures head { TellsHead result (head self.now bytes.now) }
        ensures rows { IfOk result (λ v. map fields_of v.items ≡ rows_of bytes.now) }
        ensures few { IfOk result (λ v. length v.items < 2 ^ 30) };

    /// The value of a row, or the least reason against it.
    fn read_row(&self, names: &Names, row: &ByteRecord) -> Result<T, Reason>
        ensures row { result ≡ unless (reason self.now names.now (fields_of row.now)) (value self.now (fields_of row.now)) }
        ensures name { OnOk result (holds_name (fields_of row.now) 0 ≡ true) }
        ensures fresh { OnOk result (number_of (field (fields_of row.now) 0) names.now ≡ None) };
}

/// The names and the values of the rows behind the header.
fn read_body<T: Drop, R: RowReader<T>>(
    alloc: Global,
    rows: &[ByteRecord],
    reader: &R,
) -> Result<Table<T>, RowStop>
    requires { length rows.now < 2 ^ 30 }
    ensures { Answers table_lists result
        (body_fault None 0 (R.value reader.now) (λ names _. R.reason reader.now names) (map fields_of rows.now))
        (column 0 (map fields_of rows.now), map (R.value reader.now) (map fields_of rows.now)) }
{
    let mut names = Names::new(alloc);
    let mut values = Vec::new(alloc);
    for (place, row) in rows.iter().enumerate() {
        let value = match reader.read_row(&names, row) {
            Ok(value) => value,
            Err(reason) => return Err(fault(place as u32 + 1, reason)),
        };
        let Ok(()) = add_row(alloc, &mut names, &mut values, field(row, 0), value) else {
            return Err(RowStop::NoMemory);
        };
    }
    Ok(Table {
        names,
        rows: values,
    })
}

/// Reads a file whose rows have each its name in the first field.
///
/// The first fault is told where there is one, by row and then by the reason's number.
pub fn read_table<T: Drop, R: RowReader<T>>(
    alloc: Global,
    bytes: &[u8],
    reader: &R,
) -> Result<Table<T>, RowStop>
    ensures { Answers table_lists result
        (file_fault (R.head reader.now bytes.now) 0 (R.value reader.now) (λ names _. R.reason reader.now names) bytes.now)
        (column 0 (body_of bytes.now), map (R.value reader.now) (body_of bytes.now)) }
{
    match reader.read_rows(alloc, bytes) {
        Ok(rows) => read_body(alloc, body(&rows), reader),
        Err(stop) => Err(stop),
    }
}
