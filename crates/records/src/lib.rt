//! The base of all readers of files of comma-separated fields: bytes to rows as a pure function,
//! fields, numbers, names and lists in them, and the first fault of a file.
//!
//! The rows are the records that the crate `csv` reads by RFC 4180 with no header row, with rows
//! of differing lengths and with its other settings at their defaults.
#![tactic(auto)]

mod adding;
mod faults;
mod fields;
mod files;
mod lists;
mod names;
mod numbers;
mod rows;
mod table;
mod table_read;

pub use adding::add_row;
pub use faults::fault;
pub use fields::{field, holds_name, is_blank, is_header, is_text};
pub use files::{body, read_file, read_optional_file};
pub use lists::{are_names, items_in, numbers_of, part, parts_of};
pub use names::number;
pub use numbers::{number_in, signed_in};
pub use rows::read_rows;
pub use table::Table;
pub use table_read::{RowReader, read_table};
