ghost use Rattle.std.specs.Prelude.{◌≡◌, ◌&&◌, map, nat_eq, is_some, true, IfSome};
ghost use Rattle.std.specs.List.{list_all, list_any};
ghost use Rattle.scoring.specs.declared.table.Table.{Table};
ghost use Rattle.scoring.specs.Limits.{kind_of, are_distinct, is_right, are_tables, is_mode, are_costs};

use crate::table::{ModeScore, Table, TableList, is_table};
use crate::{MAX_PER_SECOND, MAX_TABLES, MAX_WORTH};

/// What a day is scored by.
#[derive(Drop)]
pub struct Tables {
    /// At most 64, no two of them for one kind. A kind without a table is worth nothing.
    pub tables: TableList,
    /// By the modes, in their order: car, walk, bike, ride, pt. A constant is at most
    /// 1,000,000,000,000 micro-utils and a second of a leg 1,000,000, or as much below zero.
    pub modes: [ModeScore; 5],
    /// What each second adds by which an activity begins late, from -1,000,000 to 0 micro-utils.
    pub late_per_second: i64,
    /// What being stuck adds, from -1,000,000,000,000 to 0 micro-utils.
    pub stuck: i64,
    pub ghost tables_in: { are_tables tables ≡ true },
    pub ghost modes_in: { list_all is_mode modes ≡ true },
    pub ghost costs_in: { are_costs late_per_second stuck ≡ true },
}

impl Tables {
    /// What a day is scored by, or `None` exactly where there are more than 64 tables, one of them
    /// as no table may be or two for one kind, or a mode or a cost out of its range.
    pub fn new(
        tables: TableList,
        modes: [ModeScore; 5],
        late_per_second: i64,
        stuck: i64,
    ) -> Option<Tables>
        ensures tables { IfSome result (λ t. (t.tables ≡ tables) × (t.modes ≡ modes)
            × (t.late_per_second ≡ late_per_second) × (t.stuck ≡ stuck)) }
        ensures which { is_some result
            ≡ (are_tables tables && list_all is_mode modes && are_costs late_per_second stuck) }
    {
        if !are_tables(tables.as_slice())
            || !are_modes(&modes)
            || !are_costs(late_per_second, stuck)
        {
            return None;
        }
        Some(Tables {
            tables,
            modes,
            late_per_second,
            stuck,
        })
    }
}

// Whether what a second of lateness and being stuck cost, in micro-utils, is within its limits.
fn are_costs(late_per_second: i64, stuck: i64) -> bool
    ensures { result ≡ are_costs late_per_second stuck }
{
    -MAX_PER_SECOND <= late_per_second && late_per_second <= 0 && -MAX_WORTH <= stuck && stuck <= 0
}

// Whether what a leg by a mode is worth is within its limits.
fn is_mode(mode: ModeScore) -> bool
    ensures { result ≡ is_mode mode }
{
    -MAX_WORTH <= mode.constant
        && mode.constant <= MAX_WORTH
        && -MAX_PER_SECOND <= mode.per_second
        && mode.per_second <= MAX_PER_SECOND
}

fn are_modes(modes: &[ModeScore]) -> bool
    ensures { result ≡ list_all is_mode modes.now }
{
    modes.iter().all(|mode| is_mode(*mode))
}

fn is_right(table: &Table) -> bool
    ensures { result ≡ is_right table.now }
{
    is_table(table.points.as_slice(), table.latest)
}

fn are_right(tables: &[Table]) -> bool
    ensures { result ≡ list_all is_right tables.now }
{
    tables.iter().all(|table| is_right(table))
}

// Whether the tables are at most 64, each as it may be, and none for the kind of another.
fn are_tables(tables: &[Table]) -> bool
    ensures { result ≡ are_tables tables.now }
{
    tables.len() <= MAX_TABLES && are_right(tables) && are_distinct(tables)
}

// Whether no two tables are for one kind.
fn are_distinct(tables: &[Table]) -> bool
    ensures { result ≡ are_distinct (map kind_of tables.now) }
{
    for place in 0..tables.len() {
        if has_kind(&tables[place + 1..], tables[place].kind) {
            return false;
        }
    }
    true
}

// Whether one of the tables is for a kind.
fn has_kind(tables: &[Table], kind: u32) -> bool
    ensures { result ≡ list_any (λ (t : Table). nat_eq kind t.kind) tables.now }
{
    tables.iter().any(|table| kind == table.kind)
}
