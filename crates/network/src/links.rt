ghost use Rattle.std.specs.{List.list_all, Prelude.◌≡◌};
ghost use Rattle.std.specs.Prelude.{◌≤◌, ◌<◌, ◌^◌, ℕ, length, map, true, None, Some, IfOk, OnOk, if◌then◌else◌};
ghost use Rattle.csv.specs.Records.{fields_of};
ghost use Rattle.events.specs.Names.{number_of};
ghost use Rattle.records.specs.Faults.{unless, Answers};
ghost use Rattle.records.specs.{Fields.field, Fields.holds_name, Fields.column, Files.body_of, Reading.body_fault};
ghost use Rattle.rows.specs.Networks.{is_link, in_links};
ghost use Rattle.network.specs.Links.{link_reason, link_of, has_bad_measure, measures_of, links_fault, link_names};

use crate::links_read::{LinksRead, no_links, with_link};
use crate::measures::Measures;
use csv::ByteRecord;
use edge_files::{Reason, RowStop};
use events::Names;
use limits::{MAX_CAPACITY, MAX_IN_LINKS, MAX_LANES, MAX_LENGTH, MAX_LINKS, MAX_SPEED};
use records::{body, fault, field, holds_name, number_in, read_file};
use rows::{LinkList, LinkRow};
use std::alloc::Global;

/// The numbers of a row, where each is one and in its range.
#[tactic(auto, unfolding(crate::specs::Links::has_bad_measure, crate::specs::Links::measures_of))]
fn measures_in(row: &ByteRecord) -> Option<Measures>
    ensures { result ≡ (if has_bad_measure (fields_of row.now) then None else Some (measures_of (fields_of row.now))) }
{
    let Some(length) = number_in(field(row, 3), 1, MAX_LENGTH) else {
        return None;
    };
    let Some(speed) = number_in(field(row, 4), 1, MAX_SPEED) else {
        return None;
    };
    let Some(capacity) = number_in(field(row, 5), 1, MAX_CAPACITY) else {
        return None;
    };
    let Some(lanes) = number_in(field(row, 6), 1, MAX_LANES) else {
        return None;
    };
    Some(Measures {
        length,
        speed,
        capacity,
        lanes,
    })
}

/// The link of a row, or the first reason against it.
#[tactic(auto, using(crate::proofs::InLinks::known_nodes), unfolding(crate::specs::Links::link_reason, crate::specs::Links::link_of))]
fn link_in(nodes: &Names, read: &LinksRead, row: &ByteRecord) -> Result<LinkRow, Reason>
    requires { length read.now.into.items ≡ length nodes.now }
    ensures link { result ≡ unless (link_reason nodes.now read.now.names read.now.links.items (fields_of row.now))
        (link_of nodes.now (fields_of row.now)) }
    ensures name { OnOk result (holds_name (fields_of row.now) 0 ≡ true) }
    ensures fresh { OnOk result (number_of (field (fields_of row.now) 0) read.now.names ≡ None) }
    ensures node { IfOk result (λ link. link.to < length nodes.now) }
    ensures few { IfOk result (λ link. in_links read.now.links.items link.to < MAX_IN_LINKS) }
{
    if row.len() != 7 {
        return Err(Reason::FieldCount);
    }
    if !holds_name(row, 0) || !holds_name(row, 1) || !holds_name(row, 2) {
        return Err(Reason::BadName);
    }
    let Some(measures) = measures_in(row) else {
        return Err(Reason::BadNumber);
    };
    if read.names.find(field(row, 0)).is_some() {
        return Err(Reason::Twice);
    }
    let Some(from) = nodes.find(field(row, 1)) else {
        return Err(Reason::Unknown);
    };
    let Some(to) = nodes.find(field(row, 2)) else {
        return Err(Reason::Unknown);
    };
    if read.names.len() >= MAX_LINKS {
        return Err(Reason::TooMany);
    }
    if read.into[to as usize] >= MAX_IN_LINKS {
        return Err(Reason::InLinks);
    }
    Ok(LinkRow {
        from,
        to,
        length: measures.length,
        speed: measures.speed,
        capacity: measures.capacity,
        lanes: measures.lanes,
    })
}

/// The links of the rows behind the header.
fn read_body(
    alloc: Global,
    rows: &[ByteRecord],
    nodes: &Names,
) -> Result<(Names, LinkList), RowStop>
    requires { length rows.now < 2 ^ 30 }
    ensures read { Answers (λ r. r) result (body_fault None 0 (link_of nodes.now)
        (link_reason nodes.now)
        (map fields_of rows.now))
        (column 0 (map fields_of rows.now), map (link_of nodes.now) (map fields_of rows.now)) }
    ensures each { IfOk result (λ r. length r.0 ≡ length r.1) }
    ensures few_in_links { IfOk result (λ r. (node : ℕ) → in_links r.1 node ≤ MAX_IN_LINKS) }
{
    let Ok(mut read) = no_links(alloc, nodes.len()) else {
        return Err(RowStop::NoMemory);
    };
    for (place, row) in rows.iter().enumerate() {
        let link = match link_in(nodes, &read, row) {
            Ok(link) => link,
            Err(reason) => return Err(fault(place as u32 + 1, reason)),
        };
        match with_link(alloc, read, field(row, 0), link) {
            Ok(after) => read = after,
            Err(_) => return Err(RowStop::NoMemory),
        }
    }
    let LinksRead { names, links, .. } = read;
    Ok((names, LinkList { rows: links }))
}

/// Reads links.csv: a name, the names of two nodes, and four numbers a row.
///
/// The first fault is told where there is one, by row and then by the reason's number.
pub fn read_links(alloc: Global, bytes: &[u8], nodes: &Names) -> Result<(Names, LinkList), RowStop>
    ensures read { Answers (λ r. r) result (links_fault nodes.now bytes.now)
        (link_names bytes.now, map (link_of nodes.now) (body_of bytes.now)) }
    ensures each { IfOk result (λ r. length r.0 ≡ length r.1) }
    ensures few { IfOk result (λ r. length r.1 ≤ MAX_LINKS) }
    ensures few_in_links { IfOk result (λ r. (node : ℕ) → in_links r.1 node ≤ MAX_IN_LINKS) }
    ensures sound { IfOk result (λ r. list_all (is_link (length nodes.now)) r.1 ≡ true) }
{
    let names = ["link", "from", "to", "length", "speed", "capacity", "lanes"];
    match read_file(alloc, bytes, &names) {
        Ok(rows) => read_body(alloc, body(&rows), nodes),
        Err(stop) => Err(stop),
    }
}
