//! Kept rows as tables, and what the tests ask of any keeper by them.

use edge_files::{Bytes, Keeper, KeptRow};
use std::alloc::Global;

/// A kept row: whose plan it is, its number, whether it is the chosen one, its score, and its lines.
pub(crate) struct Kept {
    pub(crate) person: &'static str,
    pub(crate) plan: u32,
    pub(crate) chosen: bool,
    pub(crate) score: Option<i64>,
    pub(crate) lines: &'static str,
}

/// Two plans of one person, of whom the second was tried.
pub(crate) static TWO: [Kept; 2] = [
    Kept {
        person: "anna",
        plan: 0,
        chosen: true,
        score: None,
        lines: "anna,0,act,home,L1,,\n",
    },
    Kept {
        person: "anna",
        plan: 1,
        chosen: false,
        score: Some(-7),
        lines: "anna,1,act,home,L2,,\n",
    },
];

/// A plan of another person.
pub(crate) static ONE: [Kept; 1] = [Kept {
    person: "otto",
    plan: 2,
    chosen: true,
    score: Some(i64::MIN),
    lines: "",
}];

/// A text; no bytes where memory is wanting.
fn bytes_of(alloc: Global, text: &str) -> Bytes {
    match Vec::from_slice(alloc, text.as_bytes()) {
        Ok(rows) => Bytes { rows },
        Err(_) => Bytes::new(alloc),
    }
}

fn row_of(alloc: Global, kept: &Kept) -> KeptRow {
    KeptRow {
        person: bytes_of(alloc, kept.person),
        plan: kept.plan,
        chosen: kept.chosen,
        score: kept.score,
        body: bytes_of(alloc, kept.lines),
    }
}

/// The rows of a table; fewer where memory is wanting.
pub(crate) fn rows_of(alloc: Global, table: &[Kept]) -> Vec<KeptRow> {
    let mut rows = Vec::new(alloc);
    for kept in table {
        let _ = rows.push(row_of(alloc, kept));
    }
    rows
}

fn is_row(row: &KeptRow, kept: &Kept) -> bool {
    row.person.rows.as_slice() == kept.person.as_bytes()
        && row.plan == kept.plan
        && row.chosen == kept.chosen
        && row.score == kept.score
        && row.body.rows.as_slice() == kept.lines.as_bytes()
}

/// Whether these are the rows of a table.
pub(crate) fn are_rows(rows: &[KeptRow], table: &[Kept]) -> bool {
    if rows.len() != table.len() {
        return false;
    }
    for (row, kept) in rows.iter().zip(table) {
        if !is_row(row, kept) {
            return false;
        }
    }
    true
}

/// Whether a keeper takes the rows of a table.
pub(crate) fn saves<K: Keeper>(
    alloc: Global,
    keeper: &mut K,
    iteration: u32,
    table: &[Kept],
) -> bool {
    keeper.save(iteration, &rows_of(alloc, table)).is_ok()
}

/// Whether a keeper holds this iteration and the rows of a table, which come behind those of a list.
pub(crate) fn holds<K: Keeper>(
    alloc: Global,
    keeper: &mut K,
    iteration: u32,
    table: &[Kept],
) -> bool {
    let mut rows = Vec::new(alloc);
    keeper.last() == Ok(Some(iteration)) && keeper.load(&mut rows).is_ok() && are_rows(&rows, table)
}

/// Whether a keeper holds nothing.
pub(crate) fn holds_nothing<K: Keeper>(alloc: Global, keeper: &mut K) -> bool {
    let mut rows = Vec::new(alloc);
    keeper.last() == Ok(None) && keeper.load(&mut rows).is_ok() && rows.is_empty()
}
