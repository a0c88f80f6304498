ghost use Rattle.std.specs.{List.list_all, Prelude.◌≡◌, Prelude.◌≤◌, Prelude.length, Prelude.map, Prelude.true, Prelude.IfOk};
ghost use Rattle.records.specs.{Faults.Answers, Fields.column, Files.optional_head_reason, Files.body_of};
ghost use Rattle.schedule.specs.Views.{departure_lists};
ghost use Rattle.schedule.specs.Departures.{departure_header, departure_reason, departure_of, departures_fault};
ghost use Rattle.rows.specs.Schedules.{is_departure};

use csv::ByteRecord;
use edge_files::{Reason, RowStop};
use events::Names;
use limits::{LAST_SECOND, MAX_DEPARTURES, MAX_SEATS};
use records::{RowReader, Table, field, holds_name, number_in, read_optional_file, read_table};
use rows::{DepartureList, DepartureRow, Departures};
use std::alloc::Global;

/// Reads the rows of departures.csv, of these routes.
#[derive(Clone, Copy)]
struct DepartureReader<'a> {
    routes: &'a Names,
}

impl RowReader<DepartureRow> for DepartureReader<'_> {
    ghost head = { λ _. optional_head_reason departure_header };

    ghost reason = { λ d. departure_reason d.routes.now };

    ghost value = { λ d. departure_of d.routes.now };

    fn read_rows(&self, alloc: Global, bytes: &[u8]) -> Result<Vec<ByteRecord>, RowStop> {
        read_optional_file(alloc, bytes, &["departure", "route", "second", "seats"])
    }

    #[tactic(auto, unfolding(crate::specs::Departures::departure_reason, crate::specs::Departures::departure_of))]
    fn read_row(&self, names: &Names, row: &ByteRecord) -> Result<DepartureRow, Reason> {
        if row.len() != 4 {
            return Err(Reason::FieldCount);
        }
        if !holds_name(row, 0) || !holds_name(row, 1) {
            return Err(Reason::BadName);
        }
        let Some(second) = number_in(field(row, 2), 0, LAST_SECOND) else {
            return Err(Reason::BadNumber);
        };
        let Some(seats) = number_in(field(row, 3), 1, MAX_SEATS) else {
            return Err(Reason::BadNumber);
        };
        if names.find(field(row, 0)).is_some() {
            return Err(Reason::Twice);
        }
        let Some(route) = self.routes.find(field(row, 1)) else {
            return Err(Reason::Unknown);
        };
        if names.len() >= MAX_DEPARTURES {
            return Err(Reason::TooMany);
        }
        Ok(DepartureRow {
            route,
            second,
            seats,
        })
    }
}

/// Reads departures.csv: a name, the name of a route, a second and a number of seats a row. A file
/// of no bytes has no departures.
///
/// The first fault is told where there is one, by row and then by the reason's number.
pub fn read_departures(alloc: Global, bytes: &[u8], routes: &Names) -> Result<Departures, RowStop>
    ensures read { Answers departure_lists result (departures_fault routes.now bytes.now)
        (column 0 (body_of bytes.now), map (departure_of routes.now) (body_of bytes.now)) }
    ensures few { IfOk result (λ d. length d.rows ≤ MAX_DEPARTURES) }
    ensures sound { IfOk result (λ d. list_all (is_departure (length routes.now)) d.rows ≡ true) }
{
    match read_table(alloc, bytes, &DepartureReader { routes }) {
        Ok(Table { names, rows }) => Ok(Departures {
            names,
            rows: DepartureList { rows },
        }),
        Err(stop) => Err(stop),
    }
}
