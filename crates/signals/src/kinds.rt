ghost use Rattle.std.specs.Prelude.{◌≡◌};
ghost use Rattle.csv.specs.Records.{fields_of};
ghost use Rattle.signals.specs.Rows.{kind_of};

use csv::ByteRecord;
use records::{field, is_text};

/// What a row of signals.csv tells of: the signal of a link, a conflict of two links, or neither.
#[derive(Clone, Copy)]
pub enum RowKind {
    Signal,
    Conflict,
    Neither,
}

/// What a row tells of.
pub fn kind_of(row: &ByteRecord) -> RowKind
    ensures { result ≡ kind_of (fields_of row.now) }
{
    if is_text(field(row, 0), b"signal") {
        return RowKind::Signal;
    }
    if is_text(field(row, 0), b"conflict") {
        return RowKind::Conflict;
    }
    RowKind::Neither
}
