ghost use Rattle.std.specs.Prelude.{◌≡◌, ◌≤◌, ◌<◌, ◌^◌, length, map, not, is_some, true, None, IfOk, OnOk};
ghost use Rattle.std.specs.List.{list_all};
ghost use Rattle.csv.specs.Records.{fields_of};
ghost use Rattle.events.specs.Names.{number_of};
ghost use Rattle.records.specs.Faults.{unless, Answers};
ghost use Rattle.records.specs.{Fields.field, Fields.holds_name, Fields.column, Files.body_of, Reading.body_fault};
ghost use Rattle.schedule.specs.Routes.{has_bad_name, is_too_much, route_reason, route_of, lists_of, lines_of, routes_of, routes_fault};
ghost use Rattle.schedule.specs.Views.{route_lists};
ghost use Rattle.rows.specs.Schedules.{is_way, is_unserved, is_route};

use crate::calls::{CallText, are_served, call_texts, calls_of};
use crate::route_lists::RouteLists;
use csv::ByteRecord;
use edge_files::{Reason, RowStop};
use events::{Calls, Names, Route, StopCall};
use limits::{MAX_CALLS, MAX_ROUTE_LINKS, MAX_ROUTES};
use records::{
    add_row, are_names, body, fault, field, holds_name, items_in, number, numbers_of,
    read_optional_file,
};
use rows::{RouteList, RouteRow, Routes, Stops, is_joined};
use std::alloc::{AllocError, Global};

fn are_calls(texts: &[CallText]) -> bool
    ensures { result ≡ list_all (λ t. t.is_call) texts.now }
{
    texts.iter().all(|text| text.is_call)
}

fn have_offsets(texts: &[CallText]) -> bool
    ensures { result ≡ list_all (λ t. is_some t.offset) texts.now }
{
    texts.iter().all(|text| text.offset.is_some())
}

fn have_stops(texts: &[CallText]) -> bool
    ensures { result ≡ list_all (λ t. is_some t.stop) texts.now }
{
    texts.iter().all(|text| text.stop.is_some())
}

fn has_bad_name(row: &ByteRecord, items: &[&[u8]], texts: &[CallText]) -> bool
    ensures { result ≡ has_bad_name (fields_of row.now) (map (λ item. item.now) items.now) texts.now }
{
    !(holds_name(row, 0) && holds_name(row, 1) && are_names(items) && are_calls(texts))
}

/// Whether there are links, each of which but the first begins where the one before it ends.
fn is_way(ends: &[(u32, u32)], links: &[u32]) -> bool
    ensures { result ≡ is_way ends.now links.now }
{
    match links {
        [_, ..] => is_joined(ends, links),
        [] => false,
    }
}

fn is_too_much(names: &Names, links: &[u32], calls: &[StopCall]) -> bool
    ensures { result ≡ is_too_much names.now links.now calls.now }
{
    names.len() >= MAX_ROUTES || links.len() > MAX_ROUTE_LINKS || calls.len() > MAX_CALLS
}

fn is_unserved(calls: &[StopCall], links: &[u32]) -> bool
    ensures { result ≡ is_unserved calls.now links.now }
{
    calls.is_empty() || !are_served(calls, links)
}

/// The links and the stop calls of a row, or the first reason against it.
#[tactic(auto, unfolding(crate::specs::Routes::route_reason, crate::specs::Routes::parts_reason, crate::specs::Routes::lists_of))]
fn route_in(
    alloc: Global,
    links: &Names,
    ends: &[(u32, u32)],
    stops: &Stops,
    names: &Names,
    row: &ByteRecord,
) -> Result<Result<RouteLists, Reason>, AllocError>
    ensures lists { IfOk result (λ found. found ≡ unless
        (route_reason links.now ends.now stops.now.names stops.now.rows names.now (fields_of row.now))
        (lists_of links.now stops.now.names stops.now.rows (fields_of row.now))) }
    ensures line { IfOk result (λ found. OnOk found (holds_name (fields_of row.now) 0 ≡ true)) }
    ensures name { IfOk result (λ found. OnOk found (holds_name (fields_of row.now) 1 ≡ true)) }
    ensures fresh { IfOk result (λ found. OnOk found (number_of (field (fields_of row.now) 1) names.now ≡ None)) }
{
    if row.len() != 4 {
        return Ok(Err(Reason::FieldCount));
    }
    let items = items_in(alloc, field(row, 2))?;
    let call_items = items_in(alloc, field(row, 3))?;
    let texts = call_texts(alloc, &stops.names, &call_items)?;
    if has_bad_name(row, &items, &texts) {
        return Ok(Err(Reason::BadName));
    }
    if !have_offsets(&texts) {
        return Ok(Err(Reason::BadNumber));
    }
    if names.find(field(row, 1)).is_some() {
        return Ok(Err(Reason::Twice));
    }
    let Some(numbers) = numbers_of(alloc, &items, links)? else {
        return Ok(Err(Reason::Unknown));
    };
    if !have_stops(&texts) {
        return Ok(Err(Reason::Unknown));
    }
    let calls = calls_of(alloc, &stops.rows.rows, &texts)?;
    if !is_way(ends, &numbers) {
        return Ok(Err(Reason::RouteBroken));
    }
    if is_too_much(names, &numbers, &calls.rows) {
        return Ok(Err(Reason::TooMany));
    }
    if is_unserved(&calls.rows, &numbers) {
        return Ok(Err(Reason::StopLink));
    }
    Ok(Ok(RouteLists {
        links: Route { rows: numbers },
        calls,
    }))
}

/// The routes of the rows behind the header.
fn read_body(
    alloc: Global,
    rows: &[ByteRecord],
    links: &Names,
    ends: &[(u32, u32)],
    stops: &Stops,
) -> Result<Routes, RowStop>
    requires { length rows.now < 2 ^ 30 }
    ensures { Answers route_lists result
        (body_fault None 1 (route_of links.now stops.now.names stops.now.rows (lines_of (map fields_of rows.now)))
        (λ names _. route_reason links.now ends.now stops.now.names stops.now.rows names)
        (map fields_of rows.now)) (
          lines_of (map fields_of rows.now),
          column 1 (map fields_of rows.now),
          routes_of links.now stops.now.names stops.now.rows (map fields_of rows.now),
        ) }
{
    let mut lines = Names::new(alloc);
    let mut names = Names::new(alloc);
    let mut routes = Vec::new(alloc);
    for (place, row) in rows.iter().enumerate() {
        let lists = match route_in(alloc, links, ends, stops, &names, row) {
            Ok(Ok(lists)) => lists,
            Ok(Err(reason)) => return Err(fault(place as u32 + 1, reason)),
            Err(_) => return Err(RowStop::NoMemory),
        };
        let Ok(line) = number(alloc, &mut lines, field(row, 0)) else {
            return Err(RowStop::NoMemory);
        };
        let RouteLists { links, calls } = lists;
        let route = RouteRow { line, links, calls };
        let Ok(()) = add_row(alloc, &mut names, &mut routes, field(row, 1), route) else {
            return Err(RowStop::NoMemory);
        };
    }
    Ok(Routes {
        lines,
        names,
        rows: RouteList { rows: routes },
    })
}

/// Reads routes.csv: the name of a line, a name, a list of links and a list of stop calls a row.
/// A file of no bytes has no routes. `ends` are the nodes where each link begins and ends.
///
/// The first fault is told where there is one, by row and then by the reason's number.
pub fn read_routes(
    alloc: Global,
    bytes: &[u8],
    links: &Names,
    ends: &[(u32, u32)],
    stops: &Stops,
) -> Result<Routes, RowStop>
    requires { length ends.now ≡ length links.now }
    ensures read { Answers route_lists result (routes_fault links.now ends.now stops.now.names stops.now.rows bytes.now) (
      lines_of (body_of bytes.now),
      column 1 (body_of bytes.now),
      routes_of links.now stops.now.names stops.now.rows (body_of bytes.now),
    ) }
    ensures few { IfOk result (λ r. length r.rows ≤ MAX_ROUTES) }
    ensures sound { IfOk result (λ r. list_all (is_route (length r.lines)
        (length links.now) ends.now stops.now.rows) r.rows ≡ true) }
{
    let header = ["line", "route", "links", "stops"];
    match read_optional_file(alloc, bytes, &header) {
        Ok(rows) => read_body(alloc, body(&rows), links, ends, stops),
        Err(stop) => Err(stop),
    }
}
