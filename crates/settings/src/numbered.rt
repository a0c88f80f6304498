ghost use Rattle.std.specs.{List.filter_map, Prelude.◌≡◌, Prelude.IfOk};
ghost use Rattle.scoring.specs.Tables.{scoring_rows};
ghost use Rattle.settings.specs.{Numbered.numbered, Numbered.by_number, Scoring.scoring_of};

use crate::costs::Scoring;
use crate::named_tables::NamedTable;
use events::{Names, Rows};
use scoring::{Table, TableList, Tables};
use std::alloc::{AllocError, Global};

/// The table with the number of its kind, where these kinds have it.
fn numbered(table: NamedTable, kinds: &Names) -> Option<Table>
    ensures { result ≡ numbered kinds.now table }
{
    let NamedTable {
        kind,
        points,
        latest,
    } = table;
    match kinds.find(kind.as_bytes()) {
        Some(kind) => Some(Table {
            kind,
            points,
            latest,
        }),
        None => None,
    }
}

/// The tables of these kinds, with the kinds' numbers.
fn numbered_tables(
    alloc: Global,
    tables: Rows<NamedTable>,
    kinds: &Names,
) -> Result<TableList, AllocError>
    ensures { IfOk result (λ r. r ≡ filter_map (numbered kinds.now) tables) }
{
    let mut rows = Vec::new(alloc);
    for table in tables.rows {
        if let Some(table) = numbered(table, kinds) {
            rows.push(table)?;
        }
    }
    Ok(TableList { rows })
}

/// What a day is scored by whose activities are of these kinds, with the kinds' numbers. A table for
/// another kind is left out, since no activity of the day is of it.
#[tactic(auto, unfolding(crate::specs::Numbered::by_number))]
pub fn by_number(alloc: Global, scoring: Scoring, kinds: &Names) -> Result<Tables, AllocError>
    ensures { IfOk result (λ tables. scoring_rows tables ≡ by_number kinds.now (scoring_of scoring)) }
{
    let Scoring {
        tables,
        modes,
        late_per_second,
        stuck,
    } = scoring;
    let tables = numbered_tables(alloc, tables, kinds)?;
    Ok(Tables {
        tables,
        modes,
        late_per_second,
        stuck,
    })
}
