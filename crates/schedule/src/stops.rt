ghost use Rattle.std.specs.{List.list_all, Prelude.◌≡◌, Prelude.◌≤◌, Prelude.length, Prelude.map, Prelude.true, Prelude.IfOk};
ghost use Rattle.records.specs.{Faults.Answers, Fields.column, Files.optional_head_reason, Files.body_of};
ghost use Rattle.schedule.specs.{Stops.stop_header, Stops.stop_reason, Stops.stop_of, Stops.stops_fault, Views.stop_lists};
ghost use Rattle.rows.specs.Schedules.{is_stop};

use csv::ByteRecord;
use edge_files::{Reason, RowStop};
use events::Names;
use limits::MAX_STOPS;
use records::{RowReader, Table, field, holds_name, read_optional_file, read_table};
use rows::{StopList, StopRow, Stops};
use std::alloc::Global;

/// Reads the rows of stops.csv, over these links.
#[derive(Clone, Copy)]
struct StopReader<'a> {
    links: &'a Names,
}

impl RowReader<StopRow> for StopReader<'_> {
    ghost head = { λ _. optional_head_reason stop_header };

    ghost reason = { λ s. stop_reason s.links.now };

    ghost value = { λ s. stop_of s.links.now };

    fn read_rows(&self, alloc: Global, bytes: &[u8]) -> Result<Vec<ByteRecord>, RowStop> {
        read_optional_file(alloc, bytes, &["stop", "link"])
    }

    #[tactic(auto, unfolding(crate::specs::Stops::stop_reason, crate::specs::Stops::stop_of))]
    fn read_row(&self, names: &Names, row: &ByteRecord) -> Result<StopRow, Reason> {
        if row.len() != 2 {
            return Err(Reason::FieldCount);
        }
        if !holds_name(row, 0) || !holds_name(row, 1) {
            return Err(Reason::BadName);
        }
        if names.find(field(row, 0)).is_some() {
            return Err(Reason::Twice);
        }
        let Some(link) = self.links.find(field(row, 1)) else {
            return Err(Reason::Unknown);
        };
        if names.len() >= MAX_STOPS {
            return Err(Reason::TooMany);
        }
        Ok(StopRow { link })
    }
}

/// Reads stops.csv: a name and the name of a link a row. A file of no bytes has no stops.
///
/// The first fault is told where there is one, by row and then by the reason's number.
pub fn read_stops(alloc: Global, bytes: &[u8], links: &Names) -> Result<Stops, RowStop>
    ensures read { Answers stop_lists result (stops_fault links.now bytes.now)
        (column 0 (body_of bytes.now), map (stop_of links.now) (body_of bytes.now)) }
    ensures few { IfOk result (λ s. length s.rows ≤ MAX_STOPS) }
    ensures sound { IfOk result (λ s. list_all (is_stop (length links.now)) s.rows ≡ true) }
{
    match read_table(alloc, bytes, &StopReader { links }) {
        Ok(Table { names, rows }) => Ok(Stops {
            names,
            rows: StopList { rows },
        }),
        Err(stop) => Err(stop),
    }
}
