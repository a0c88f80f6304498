ghost use Rattle.std.specs.Prelude.{◌≡◌, ◌<◌, length, IfOk, unwrap_or};
ghost use Rattle.csv.specs.Records.{fields_of};
ghost use Rattle.records.specs.Faults.{unless};
ghost use Rattle.signals.specs.Rows.{has_signal, signal_reason, link_in, phases_in, end_of, are_apart, other_in, conflict_reason};

use crate::spans::{are_spans, ascend, have_numbers, span_texts, spans_of};
use csv::ByteRecord;
use edge_files::Reason;
use events::Names;
use limits::{MAX_CONFLICTS, MAX_CYCLE, MAX_SPANS};
use records::{field, holds_name, is_blank, items_in, number_in};
use rows::Green;
use std::alloc::{AllocError, Global};

/// Whether a link has a signal already.
fn has_signal(signals: &[Option<Green>], link: Option<u32>) -> bool
    ensures { result ≡ has_signal signals.now link }
{
    let Some(link) = link else {
        return false;
    };
    match signals.get(link as usize) {
        Some(signal) => signal.is_some(),
        None => false,
    }
}

/// The link of a row with its signal, or the first reason against it.
#[tactic(auto, using(crate::proofs::Steps::known_links), unfolding(crate::specs::Rows::texts_reason, crate::specs::Rows::phases_in))]
pub fn signal_in(
    alloc: Global,
    links: &Names,
    signals: &[Option<Green>],
    row: &ByteRecord,
) -> Result<Result<(u32, Green), Reason>, AllocError>
    ensures signal { IfOk result (λ found. found ≡ unless (signal_reason links.now signals.now (fields_of row.now))
        (unwrap_or (link_in links.now (fields_of row.now)) 0, phases_in (fields_of row.now))) }
    ensures there { IfOk result (λ found. IfOk found (λ signal. signal.0 < length links.now)) }
{
    if !is_blank(row, 2) {
        return Ok(Err(Reason::FieldCount));
    }
    if !holds_name(row, 1) {
        return Ok(Err(Reason::BadName));
    }
    let items = items_in(alloc, field(row, 5))?;
    let texts = span_texts(alloc, &items)?;
    let Some(cycle) = number_in(field(row, 3), 1, MAX_CYCLE) else {
        return Ok(Err(Reason::BadNumber));
    };
    let Some(offset) = number_in(field(row, 4), 0, MAX_CYCLE - 1) else {
        return Ok(Err(Reason::BadNumber));
    };
    if !have_numbers(&texts) {
        return Ok(Err(Reason::BadNumber));
    }
    let known = links.find(field(row, 1));
    if has_signal(signals, known) {
        return Ok(Err(Reason::Twice));
    }
    let Some(link) = known else {
        return Ok(Err(Reason::Unknown));
    };
    if texts.len() > MAX_SPANS {
        return Ok(Err(Reason::TooMany));
    }
    let spans = spans_of(alloc, &texts)?;
    if offset >= cycle || !are_spans(&texts) || !ascend(cycle, &spans.rows) {
        return Ok(Err(Reason::SignalWrong));
    }
    Ok(Ok((
        link,
        Green {
            cycle,
            offset,
            spans,
        },
    )))
}

/// The node where a link ends.
fn end_of(ends: &[(u32, u32)], link: u32) -> u32
    ensures { result ≡ end_of ends.now link }
{
    match ends.get(link as usize) {
        Some(ends) => ends.1,
        None => 0,
    }
}

/// Whether the two are one link, or end at different nodes.
fn are_apart(ends: &[(u32, u32)], link: u32, other: u32) -> bool
    ensures { result ≡ are_apart ends.now link other }
{
    link == other || end_of(ends, link) != end_of(ends, other)
}

/// The two links of a conflict, or the first reason against it.
#[tactic(auto, using(crate::proofs::Steps::known_links), unfolding(crate::specs::Rows::conflict_reason))]
pub fn conflict_in(
    links: &Names,
    ends: &[(u32, u32)],
    conflicts: usize,
    row: &ByteRecord,
) -> Result<(u32, u32), Reason>
    ensures conflict { result ≡ unless (conflict_reason links.now ends.now conflicts (fields_of row.now))
        (unwrap_or (link_in links.now (fields_of row.now)) 0, unwrap_or (other_in links.now (fields_of row.now)) 0) }
    ensures there { IfOk result (λ found. (found.0 < length links.now) × (found.1 < length links.now)) }
{
    if !is_blank(row, 3) || !is_blank(row, 4) || !is_blank(row, 5) {
        return Err(Reason::FieldCount);
    }
    if !holds_name(row, 1) || !holds_name(row, 2) {
        return Err(Reason::BadName);
    }
    let Some(link) = links.find(field(row, 1)) else {
        return Err(Reason::Unknown);
    };
    let Some(other) = links.find(field(row, 2)) else {
        return Err(Reason::Unknown);
    };
    if conflicts >= MAX_CONFLICTS {
        return Err(Reason::TooMany);
    }
    if are_apart(ends, link, other) {
        return Err(Reason::SignalWrong);
    }
    Ok((link, other))
}
