ghost use Rattle.std.specs.Prelude.{◌≡◌, ◌≤◌, false, true, Some, None, IfOk, IfSome, bytes_eq, codes, length, map, option_map};
ghost use Rattle.std.specs.List.{list_all, list_any};
ghost use Rattle.events.specs.Names.{are_distinct};
ghost use Rattle.scoring.specs.declared.TheConstants.{MAX_TABLES};
ghost use Rattle.serde_json.specs.{Find.get_member, View.view, View.items_view, View.members_view};
ghost use Rattle.settings.specs.{Looking.all_of, Looking.list_of, Looking.or_default, NamedTables.point_of, NamedTables.point_in};
ghost use Rattle.settings.specs.NamedTables.{points_in, kind_in, latest_in, table_in, tables_in, given_tables, kind_name, is_right};
ghost use Rattle.settings.specs.{NamedTables.are_right, declared.named_tables.NamedTable.NamedTable};

use crate::looking::{member, signed_in, small_in};
use events::{Name, Rows};
use limits::LAST_SECOND;
use scoring::{MAX_POINT_SECOND, MAX_TABLES, MAX_WORTH, Points, is_table};
use serde_json::{Map, Value};
use std::alloc::{AllocError, Global};

/// A table as the settings give it: the name of a kind of activity, points, and the last
/// second in which an activity of the kind begins in time.
#[derive(Drop)]
pub struct NamedTable {
    pub kind: Name,
    pub points: Points,
    pub latest: Option<u32>,
}

/// The point that a list of a second and what is reached there is.
fn point_of(items: &[Value]) -> Option<(u32, i64)>
    ensures { result ≡ point_of (list_of (items_view items.now)) }
{
    if items.len() != 2 {
        return None;
    }
    let Some(second) = small_in(&items[0], 0, MAX_POINT_SECOND) else {
        return None;
    };
    match signed_in(&items[1], -MAX_WORTH, MAX_WORTH) {
        Some(worth) => Some((second, worth)),
        None => None,
    }
}

/// The point that a value is.
#[tactic(auto, unfolding(crate::specs::NamedTables::point_in))]
fn point_in(value: &Value) -> Option<(u32, i64)>
    ensures { result ≡ point_in (view value.now) }
{
    match value.as_array() {
        Some(items) => point_of(items.as_slice()),
        None => None,
    }
}

/// The points that values are, where each is one.
fn points_of(alloc: Global, items: &[Value]) -> Result<Option<Points>, AllocError>
    ensures { IfOk result (λ points. points ≡ all_of (map (λ v. point_in (view v)) items.now)) }
{
    let mut rows = Vec::new(alloc);
    for item in items {
        let Some(point) = point_in(item) else {
            return Ok(None);
        };
        rows.push(point)?;
    }
    Ok(Some(Points { rows }))
}

/// The points that a value is, a list of them.
#[tactic(auto, unfolding(crate::specs::NamedTables::points_in))]
fn points_in(alloc: Global, value: &Value) -> Result<Option<Points>, AllocError>
    ensures { IfOk result (λ points. points ≡ points_in (view value.now)) }
{
    let Some(items) = value.as_array() else {
        return Ok(None);
    };
    let points = points_of(alloc, items.as_slice())?;
    Ok(points)
}

/// The name that a value is.
#[tactic(auto, unfolding(crate::specs::NamedTables::kind_in))]
fn kind_in(alloc: Global, value: &Value) -> Result<Option<Name>, AllocError>
    ensures { IfOk result (λ kind. kind ≡ kind_in (view value.now)) }
{
    let Some(text) = value.as_str() else {
        return Ok(None);
    };
    let name = Name::read(alloc, text.as_bytes())?;
    Ok(name)
}

/// The last second in which an activity begins in time, if it is given; `None` where it may not be.
#[tactic(auto, unfolding(crate::specs::NamedTables::latest_in))]
fn latest_in(table: &Map<String, Value>) -> Option<Option<u32>>
    ensures { result ≡ or_default latest_in None (get_member (codes "latest") (members_view table.now.entries)) }
{
    let Some(value) = member(table, "latest") else {
        return Some(None);
    };
    match small_in(value, 0, LAST_SECOND) {
        Some(second) => Some(Some(second)),
        None => None,
    }
}

/// The table that a value is, an object with a kind, points and maybe a second.
#[tactic(auto, unfolding(crate::specs::NamedTables::table_in))]
fn table_in(alloc: Global, value: &Value) -> Result<Option<NamedTable>, AllocError>
    ensures { IfOk result (λ table. table ≡ table_in (view value.now)) }
{
    let Some(table) = value.as_object() else {
        return Ok(None);
    };
    let Some(latest) = latest_in(table) else {
        return Ok(None);
    };
    let (Some(kind), Some(points)) = (member(table, "kind"), member(table, "points")) else {
        return Ok(None);
    };
    let Some(kind) = kind_in(alloc, kind)? else {
        return Ok(None);
    };
    let Some(points) = points_in(alloc, points)? else {
        return Ok(None);
    };
    Ok(Some(NamedTable {
        kind,
        points,
        latest,
    }))
}

/// The tables that values are, where each is one.
fn tables_of(alloc: Global, values: &[Value]) -> Result<Option<Rows<NamedTable>>, AllocError>
    ensures tables { IfOk result (λ tables. tables ≡ all_of (map (λ v. table_in (view v)) values.now)) }
    ensures count { IfOk result (λ o. IfSome o (λ tables. length tables ≤ length values.now)) }
{
    let mut rows = Vec::new(alloc);
    for value in values {
        let Some(table) = table_in(alloc, value)? else {
            return Ok(None);
        };
        rows.push(table)?;
    }
    Ok(Some(Rows { rows }))
}

/// The tables that values are, at most 64.
#[tactic(auto, unfolding(crate::specs::NamedTables::tables_in))]
fn tables_in(alloc: Global, values: &[Value]) -> Result<Option<Rows<NamedTable>>, AllocError>
    ensures tables { IfOk result (λ tables. tables ≡ tables_in (list_of (items_view values.now))) }
    ensures few { IfOk result (λ o. IfSome o (λ tables. length tables ≤ MAX_TABLES)) }
{
    if values.len() > MAX_TABLES {
        return Ok(None);
    }
    let tables = tables_of(alloc, values)?;
    Ok(tables)
}

/// The tables that the settings give, of which there need be none; `None` where they may not be.
pub fn given_tables(
    alloc: Global,
    settings: &Map<String, Value>,
) -> Result<Option<Rows<NamedTable>>, AllocError>
    ensures tables { IfOk result
        (λ tables. tables ≡ given_tables (get_member (codes "tables") (members_view settings.now.entries))) }
    ensures few { IfOk result (λ o. IfSome o (λ tables. length tables ≤ MAX_TABLES)) }
{
    let Some(value) = member(settings, "tables") else {
        let rows = Vec::new(alloc);
        return Ok(Some(Rows { rows }));
    };
    let Some(values) = value.as_array() else {
        return Ok(None);
    };
    let tables = tables_in(alloc, values.as_slice())?;
    Ok(tables)
}

fn is_right(table: &NamedTable) -> bool
    ensures { result ≡ is_right table.now }
{
    is_table(table.points.as_slice(), table.latest)
}

fn is_each_right(tables: &[NamedTable]) -> bool
    ensures { result ≡ list_all is_right tables.now }
{
    tables.iter().all(|table| is_right(table))
}

fn is_kind(table: &NamedTable, kind: &Name) -> bool
    ensures { result ≡ bytes_eq kind.now table.now.kind }
{
    kind.as_bytes() == table.kind.as_bytes()
}

/// Whether one of the tables is for a kind.
fn has_kind(tables: &[NamedTable], kind: &Name) -> bool
    ensures { result ≡ list_any (λ (t : NamedTable). bytes_eq kind.now t.kind) tables.now }
{
    tables.iter().any(|table| is_kind(table, kind))
}

/// Whether no two tables are for one kind.
fn are_distinct(tables: &[NamedTable]) -> bool
    ensures { result ≡ are_distinct (map kind_name tables.now) }
{
    for place in 0..tables.len() {
        if has_kind(&tables[place + 1..], &tables[place].kind) {
            return false;
        }
    }
    true
}

/// Whether each table has 1 to 32 points at seconds that rise, and no kind has two.
#[tactic(auto, unfolding(crate::specs::NamedTables::are_right))]
pub fn are_right(tables: &[NamedTable]) -> bool
    ensures { result ≡ are_right tables.now }
{
    is_each_right(tables) && are_distinct(tables)
}
