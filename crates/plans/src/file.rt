ghost use Rattle.std.specs.Prelude.{◌≡◌, ◌<◌, ◌≤◌, ◌+◌, ◌^◌, length, map, option_map, is_some, true, None, Some};
ghost use Rattle.std.specs.Prelude.{IfOk, All};
ghost use Rattle.csv.specs.Records.{fields_of};
ghost use Rattle.records.specs.{Faults.Answers, Fields.field, Lists.numbers_of};
ghost use Rattle.plans.specs.Values.{row_before, row_behind, plans_fault, file_rows, rows_fault, values_of};
ghost use Rattle.plans.specs.Progress.{IsReadTo, IsSound, RowAble, step_first, step_act, step_leg, finish};
ghost use Rattle.plans.specs.{Read.progress_of, Read.file_rows_of, Read.Reads, Kinds.kind_of, Kinds.is_car, Kinds.items_of};
ghost use Rattle.events.specs.{Names.number_of, Names.is_name, declared.event.Mode.Mode};
ghost use Rattle.plans.specs.declared.kinds.ElementKind.TheVariants as element;

use crate::kinds::{ElementKind, kind_of};
use crate::leg_steps::step_leg;
use crate::open_plan::begun;
use crate::plan_file::{PlanFile, RowNumbers};
use crate::refusals::{Between, Named, refusal};
use crate::rows_read::RowsRead;
use crate::steps::{named_in, numbered_act, step_act, with_closed};
use csv::ByteRecord;
use edge_files::RowStop;
use events::Names;
use records::{body, fault, field, number, read_file};
use rows::{PlanList, PlanLists};
use std::alloc::{AllocError, Global};

/// The row before a place.
#[tactic(auto, unfolding(crate::specs::Values::row_before))]
fn row_before(rows: &[ByteRecord], place: usize) -> Option<&ByteRecord>
    requires { place < length rows.now }
    ensures { option_map (λ r. fields_of r.now) result ≡ row_before (map fields_of rows.now) place }
{
    if place == 0 {
        return None;
    }
    Some(&rows[place - 1])
}

/// The row behind a place.
#[tactic(auto, unfolding(crate::specs::Values::row_behind))]
fn row_behind(rows: &[ByteRecord], place: usize) -> Option<&ByteRecord>
    requires { place < length rows.now }
    ensures { option_map (λ r. fields_of r.now) result ≡ row_behind (map fields_of rows.now) place }
{
    match rows.split_at(place + 1).1 {
        [row, ..] => Some(row),
        [] => None,
    }
}

/// What the first row gives, which is an activity.
#[tactic(auto, unfolding(crate::specs::Progress::step_first))]
fn with_first(
    alloc: Global,
    row: &ByteRecord,
    named: &Named,
    links: &Names,
) -> Result<RowsRead, AllocError>
    requires person { is_name (field (fields_of row.now) 0) ≡ true }
    requires kind { is_name (field (fields_of row.now) 3) ≡ true }
    requires link { named.now.link ≡ number_of (field (fields_of row.now) 4) links.now }
    requires found { is_some named.now.link ≡ true }
    ensures { IfOk result (λ r. progress_of r ≡ step_first links.now (fields_of row.now)) }
{
    let mut persons = Names::new(alloc);
    number(alloc, &mut persons, field(row, 0))?;
    let mut kinds = Names::new(alloc);
    let act = numbered_act(alloc, &mut kinds, row, named, links)?;
    let mut starts = Vec::new(alloc);
    starts.push(1)?;
    Ok(RowsRead {
        persons,
        kinds,
        lines: Names::new(alloc),
        stops: Names::new(alloc),
        plans: Vec::new(alloc),
        own: Vec::new(alloc),
        starts,
        current: begun(alloc, act),
    })
}

/// What the rows give, the last plan and its person closed.
#[tactic(auto, unfolding(crate::specs::Progress::finish))]
fn finished(read: RowsRead) -> Result<PlanFile, AllocError>
    requires { is_some read.current.last ≡ true }
    ensures { IfOk result (λ file. file_rows_of file ≡ finish (progress_of read)) }
{
    let RowsRead {
        persons,
        kinds,
        lines,
        stops,
        mut plans,
        own,
        starts,
        current,
    } = read;
    let rows = with_closed(own, current)?;
    plans.push(PlanList { rows })?;
    Ok(PlanFile {
        persons,
        kinds,
        lines,
        stops,
        plans: PlanLists { rows: plans },
        starts: RowNumbers { rows: starts },
    })
}

/// The first row, which nothing precedes.
fn first_row(
    alloc: Global,
    rows: &[ByteRecord],
    links: &Names,
    ends: &[(u32, u32)],
) -> Result<RowsRead, RowStop>
    requires { 0 < length rows.now }
    ensures { Reads result links.now ends.now (map fields_of rows.now) 1 }
{
    let row = &rows[0];
    let named = match named_in(alloc, row, links) {
        Ok(named) => named,
        Err(_) => return Err(RowStop::NoMemory),
    };
    let nobody = Names::new(alloc);
    let between = Between {
        before: None,
        row,
        next: row_behind(rows, 0),
    };
    if let Some(reason) = refusal(links, ends, &nobody, 0, &between, &named) {
        return Err(fault(1, reason));
    }
    match with_first(alloc, row, &named, links) {
        Ok(read) => Ok(read),
        Err(_) => Err(RowStop::NoMemory),
    }
}

/// One more row, against which nothing speaks.
fn with_row(
    alloc: Global,
    before: Option<&ByteRecord>,
    row: &ByteRecord,
    number_of_row: u32,
    named: Named,
    links: &Names,
    read: RowsRead,
) -> Result<RowsRead, AllocError>
    requires items { map (λ item. item.now) named.items.items ≡ items_of (fields_of row.now) }
    requires link { named.link ≡ number_of (field (fields_of row.now) 4) links.now }
    requires route { is_car (kind_of (fields_of row.now)) ≡ true → option_map (λ route. route.items) named.route
        ≡ numbers_of (items_of (fields_of row.now)) links.now }
    requires able { RowAble links.now (progress_of read) (option_map (λ r. fields_of r.now) before) (fields_of row.now) }
    ensures act { IfOk result
        (λ r. kind_of (fields_of row.now) ≡ element.Act → progress_of r
        ≡ step_act links.now (progress_of read) (option_map (λ r. fields_of r.now) before.entry) (fields_of row.now) number_of_row) }
    ensures leg { IfOk result
        (λ r. (mode : Mode) → kind_of (fields_of row.now) ≡ element.Leg (Some mode) → progress_of r
        ≡ step_leg links.now (progress_of read) mode (fields_of row.now)) }
{
    match kind_of(row) {
        ElementKind::Act => step_act(alloc, read, before, row, number_of_row, &named, links),
        ElementKind::Leg(Some(mode)) => step_leg(alloc, read, mode, row, named, links),
        ElementKind::Leg(None) => unreachable!(),
        ElementKind::Neither => unreachable!(),
    }
}

/// One more row.
fn next_row(
    alloc: Global,
    rows: &[ByteRecord],
    place: usize,
    links: &Names,
    ends: &[(u32, u32)],
    read: RowsRead,
) -> Result<RowsRead, RowStop>
    requires within { place < length rows.now }
    requires few { length rows.now < 2 ^ 30 }
    requires read { IsReadTo links.now ends.now (map fields_of rows.now) place (progress_of read) }
    ensures { Reads result links.now ends.now (map fields_of rows.now) (place + 1) }
{
    let before = row_before(rows, place);
    let row = &rows[place];
    let named = match named_in(alloc, row, links) {
        Ok(named) => named,
        Err(_) => return Err(RowStop::NoMemory),
    };
    let between = Between {
        before,
        row,
        next: row_behind(rows, place),
    };
    let legs = read.current.legs.len();
    if let Some(reason) = refusal(links, ends, &read.persons, legs, &between, &named) {
        return Err(fault(place as u32 + 1, reason));
    }
    match with_row(alloc, before, row, place as u32 + 1, named, links, read) {
        Ok(read) => Ok(read),
        Err(_) => Err(RowStop::NoMemory),
    }
}

/// The rows behind the header.
fn read_rows(
    alloc: Global,
    rows: &[ByteRecord],
    links: &Names,
    ends: &[(u32, u32)],
) -> Result<PlanFile, RowStop>
    requires some { 0 < length rows.now }
    requires few { length rows.now < 2 ^ 30 }
    ensures read { Answers file_rows_of result (rows_fault None links.now ends.now (map fields_of rows.now))
        (values_of links.now (map fields_of rows.now)) }
    ensures sound { IfOk result (λ file. IsSound links.now ends.now (file_rows_of file)) }
    ensures starts { IfOk result (λ file. All (λ row. row < 2 ^ 30) file.starts) }
{
    let mut read = match first_row(alloc, rows, links, ends) {
        Ok(read) => read,
        Err(stop) => return Err(stop),
    };
    for place in 1..rows.len() {
        match next_row(alloc, rows, place, links, ends, read) {
            Ok(after) => read = after,
            Err(stop) => return Err(stop),
        }
    }
    match finished(read) {
        Ok(file) => Ok(file),
        Err(_) => Err(RowStop::NoMemory),
    }
}

/// Reads plans.csv: the plans of persons, one element of a plan a row, over links of these names
/// and of these start and end nodes.
///
/// Persons, kinds, lines and stops are numbered by first appearance. The first fault is told where
/// there is one, by row and then by the reason's number.
pub fn read_plans(
    alloc: Global,
    bytes: &[u8],
    links: &Names,
    ends: &[(u32, u32)],
) -> Result<PlanFile, RowStop>
    requires { length ends.now ≡ length links.now }
    ensures read { Answers file_rows_of result (plans_fault links.now ends.now bytes.now) (file_rows links.now bytes.now) }
    ensures sound { IfOk result (λ file. IsSound links.now ends.now (file_rows_of file)) }
    ensures starts { IfOk result (λ file. All (λ row. row < 2 ^ 30) file.starts) }
{
    let header = ["person", "plan", "kind", "name", "link", "time", "route"];
    match read_file(alloc, bytes, &header) {
        Ok(rows) => read_rows(alloc, body(&rows), links, ends),
        Err(stop) => Err(stop),
    }
}
