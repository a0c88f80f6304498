ghost use Rattle.std.specs.Prelude.{◌≡◌, ◌++◌, ◌∷◌, [], ◌<◌, ◌^◌, length, map, replicate, true, None, IfOk};
ghost use Rattle.std.specs.List.{list_all};
ghost use Rattle.csv.specs.Records.{fields_of};
ghost use Rattle.records.specs.{Faults.Answers, Files.body_of};
ghost use Rattle.signals.specs.Rows.{signal_reason, conflict_reason, row_reason, with_signal, conflict_of, with_row};
ghost use Rattle.signals.specs.Signals.{rows_fault, signals_fault, or_always, signal_rows_of, is_among};
ghost use Rattle.signals.specs.Views.{signal_view, seen_of, Reads, AreSeen, ReadSeen};

use crate::conflict::{Conflict, ConflictList};
use crate::kinds::{RowKind, kind_of};
use crate::lists::Signals;
use crate::signal_rows::{conflict_in, signal_in};
use crate::signals_read::{SignalsRead, greens_of, no_signals};
use csv::ByteRecord;
use edge_files::{Reason, RowStop};
use events::Names;
use records::{body, fault, read_optional_file};
use std::alloc::{AllocError, Global};

/// Nothing is read of so many links.
fn nothing_read(alloc: Global, links: u32) -> Result<SignalsRead, AllocError>
    ensures { IfOk result (λ read. seen_of read ≡ record { signals = replicate links None; conflicts = [] }) }
{
    let signals = no_signals(alloc, links)?;
    Ok(SignalsRead {
        signals,
        conflicts: Vec::new(alloc),
    })
}

/// With the signal of a row, or the first reason against it.
fn with_signal(
    alloc: Global,
    links: &Names,
    read: SignalsRead,
    row: &ByteRecord,
) -> Result<Result<SignalsRead, Reason>, AllocError>
    requires { AreSeen (length links.now) (seen_of read) }
    ensures read { IfOk result (λ found. Reads found (signal_reason links.now read.signals.items (fields_of row.now))
        (record { signals = with_signal links.now (fields_of row.now) read.signals.items; conflicts = read.conflicts.items })) }
    ensures there { IfOk result (λ found. ReadSeen (length links.now) found) }
{
    let SignalsRead {
        mut signals,
        conflicts,
    } = read;
    match signal_in(alloc, links, &signals, row) {
        Ok(Ok((link, green))) => {
            signals[link as usize] = Some(green);
            Ok(Ok(SignalsRead { signals, conflicts }))
        }
        Ok(Err(reason)) => Ok(Err(reason)),
        Err(error) => Err(error),
    }
}

/// With the conflict of a row of this number, or the first reason against it.
fn with_conflict(
    links: &Names,
    ends: &[(u32, u32)],
    read: SignalsRead,
    number: u32,
    row: &ByteRecord,
) -> Result<Result<SignalsRead, Reason>, AllocError>
    requires { AreSeen (length links.now) (seen_of read) }
    ensures read { IfOk result (λ found. Reads found (conflict_reason links.now ends.now (length read.conflicts.items) (fields_of row.now))
        (record {
          signals = read.signals.items;
          conflicts = read.conflicts.items
              ++ conflict_of links.now number (fields_of row.now) ∷ [];
        })) }
    ensures there { IfOk result (λ found. ReadSeen (length links.now) found) }
{
    let SignalsRead {
        signals,
        mut conflicts,
    } = read;
    match conflict_in(links, ends, conflicts.len(), row) {
        Ok((link, other)) => {
            conflicts.push(Conflict {
                row: number,
                link,
                other,
            })?;
            Ok(Ok(SignalsRead { signals, conflicts }))
        }
        Err(reason) => Ok(Err(reason)),
    }
}

/// With a row of this number, or the first reason against it.
fn with_row(
    alloc: Global,
    links: &Names,
    ends: &[(u32, u32)],
    read: SignalsRead,
    number: u32,
    row: &ByteRecord,
) -> Result<Result<SignalsRead, Reason>, AllocError>
    requires { AreSeen (length links.now) (seen_of read) }
    ensures read { IfOk result (λ found. Reads found (row_reason links.now ends.now (seen_of read) (fields_of row.now))
        (with_row links.now number (fields_of row.now) (seen_of read))) }
    ensures there { IfOk result (λ found. ReadSeen (length links.now) found) }
{
    if row.len() != 6 {
        return Ok(Err(Reason::FieldCount));
    }
    match kind_of(row) {
        RowKind::Signal => {
            let found = with_signal(alloc, links, read, row)?;
            Ok(found)
        }
        RowKind::Conflict => {
            let found = with_conflict(links, ends, read, number, row)?;
            Ok(found)
        }
        RowKind::Neither => Ok(Err(Reason::SignalWrong)),
    }
}

/// The signals of all links, and the conflicts.
fn signals_of(alloc: Global, read: SignalsRead) -> Result<Signals, AllocError>
    requires { list_all (is_among (length read.signals.items)) read.conflicts.items ≡ true }
    ensures { IfOk result (λ signals. signal_view signals
        ≡ record { greens = map or_always read.signals.items; conflicts = read.conflicts.items }) }
{
    let SignalsRead { signals, conflicts } = read;
    let greens = greens_of(alloc, signals)?;
    Ok(Signals {
        greens,
        conflicts: ConflictList { rows: conflicts },
    })
}

/// The signals and the conflicts of the rows behind the header.
fn read_body(
    alloc: Global,
    rows: &[ByteRecord],
    links: &Names,
    ends: &[(u32, u32)],
) -> Result<Signals, RowStop>
    requires { length rows.now < 2 ^ 30 }
    ensures { Answers signal_view result (rows_fault None links.now ends.now (map fields_of rows.now))
        (signal_rows_of links.now (map fields_of rows.now)) }
{
    let Ok(mut read) = nothing_read(alloc, links.len()) else {
        return Err(RowStop::NoMemory);
    };
    for (place, row) in rows.iter().enumerate() {
        match with_row(alloc, links, ends, read, place as u32 + 1, row) {
            Ok(Ok(after)) => read = after,
            Ok(Err(reason)) => return Err(fault(place as u32 + 1, reason)),
            Err(_) => return Err(RowStop::NoMemory),
        }
    }
    match signals_of(alloc, read) {
        Ok(signals) => Ok(signals),
        Err(_) => Err(RowStop::NoMemory),
    }
}

/// Reads signals.csv: a row is the signal of a link, with its cycle, its offset and the spans of the cycle in which the link is green, or
/// a conflict of two links that end at one node. A file of no bytes has no signals. `ends` are the nodes where each link begins and ends.
///
/// The first fault is told where there is one, by row and then by the reason's number.
pub fn read_signals(
    alloc: Global,
    bytes: &[u8],
    links: &Names,
    ends: &[(u32, u32)],
) -> Result<Signals, RowStop>
    ensures read { Answers signal_view result (signals_fault links.now ends.now bytes.now)
        (signal_rows_of links.now (body_of bytes.now)) }
    ensures each { IfOk result (λ signals. length signals.greens ≡ length links.now) }
{
    let header = ["kind", "link", "other", "cycle", "offset", "greens"];
    match read_optional_file(alloc, bytes, &header) {
        Ok(rows) => read_body(alloc, body(&rows), links, ends),
        Err(stop) => Err(stop),
    }
}
