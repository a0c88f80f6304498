ghost use Rattle.std.specs.Prelude.{◌≡◌, length, map, bytes_eq};
ghost use Rattle.csv.specs.Records.{fields_of};
ghost use Rattle.records.specs.Fields.{field, holds_name, is_blank, are_fields, is_header};

use csv::ByteRecord;
use events::is_name;

/// The field at a place, from 0 on, or no bytes where the row is too short.
pub fn field(row: &ByteRecord, place: usize) -> &[u8]
    ensures { result.now ≡ field (fields_of row.now) place }
{
    match row.get(place) {
        Some(bytes) => bytes,
        None => b"",
    }
}

/// Whether the bytes are this text.
pub fn is_text(bytes: &[u8], text: &[u8]) -> bool
    ensures { result ≡ bytes_eq bytes.now text.now }
{
    bytes == text
}

/// Whether the field at a place is a name: 1 to 64 letters, digits, `_`, `.` or `-`.
pub fn holds_name(row: &ByteRecord, place: usize) -> bool
    ensures { result ≡ holds_name (fields_of row.now) place }
{
    is_name(field(row, place))
}

/// Whether the field at a place has no bytes.
pub fn is_blank(row: &ByteRecord, place: usize) -> bool
    ensures { result ≡ is_blank (fields_of row.now) place }
{
    field(row, place).is_empty()
}

/// Whether the first fields are these texts, of a row that has as many.
#[tactic(auto, unfolding(crate::specs::Fields::are_fields))]
fn are_fields(row: &ByteRecord, names: &[&str]) -> bool
    requires { length (fields_of row.now) ≡ length names.now }
    ensures { result ≡ are_fields (map (λ n. n.now) names.now) 0 (fields_of row.now) }
{
    let mut rest = names;
    let mut place = 0;
    while let [name, after @ ..] = rest {
        if !is_text(field(row, place), name.as_bytes()) {
            return false;
        }
        rest = after;
        place += 1;
    }
    true
}

/// Whether the fields of a row are these texts, in this order and no others.
pub fn is_header(row: &ByteRecord, names: &[&str]) -> bool
    ensures { result ≡ is_header (map (λ n. n.now) names.now) (fields_of row.now) }
{
    row.len() == names.len() && are_fields(row, names)
}
