ghost use Rattle.std.specs.Prelude.{◌≡◌, ◌≤◌, ◌<◌, nat_eq, map, length, position, IfOk, IfSome};
ghost use Rattle.schedule.specs.Calls.{is_call, text_of, call_text, call_of};
ghost use Rattle.rows.specs.Schedules.{are_served};

use events::{Calls, Names, StopCall, is_name};
use limits::LAST_SECOND;
use records::{is_text, number_in, part, parts_of};
use rows::{StopRow, stop_link};
use std::alloc::{AllocError, Global};

/// What the text of a stop call says: whether it has the form of one, the number of its stop, its
/// offset in seconds, and whether the vehicle waits until then.
#[derive(Clone, Copy)]
pub struct CallText {
    pub is_call: bool,
    pub stop: Option<u32>,
    pub offset: Option<u32>,
    pub wait: bool,
}

#[tactic(auto, unfolding(crate::specs::Calls::is_call))]
fn is_call(parts: &[&[u8]]) -> bool
    ensures { result ≡ is_call (map (λ p. p.now) parts.now) }
{
    if !is_name(part(parts, 0)) {
        return false;
    }
    if parts.len() == 2 {
        return true;
    }
    parts.len() == 3 && is_text(part(parts, 2), b"wait")
}

#[tactic(auto, unfolding(crate::specs::Calls::text_of))]
fn text_of(stops: &Names, parts: &[&[u8]]) -> CallText
    ensures { result ≡ text_of stops.now (map (λ p. p.now) parts.now) }
{
    CallText {
        is_call: is_call(parts),
        stop: stops.find(part(parts, 0)),
        offset: number_in(part(parts, 1), 0, LAST_SECOND),
        wait: parts.len() == 3,
    }
}

fn call_text(alloc: Global, stops: &Names, item: &[u8]) -> Result<CallText, AllocError>
    ensures { IfOk result (λ text. text ≡ call_text stops.now item.now) }
{
    let parts = parts_of(alloc, item, b':')?;
    Ok(text_of(stops, &parts))
}

/// What each text of a stop call says.
pub fn call_texts(
    alloc: Global,
    stops: &Names,
    items: &[&[u8]],
) -> Result<Vec<CallText>, AllocError>
    ensures { IfOk result (λ texts. texts.items ≡ map (call_text stops.now)
        (map (λ item. item.now) items.now)) }
{
    let mut texts = Vec::new(alloc);
    let mut rest = items;
    while let [item, after @ ..] = rest {
        texts.push(call_text(alloc, stops, item)?)?;
        rest = after;
    }
    Ok(texts)
}

#[tactic(auto, unfolding(crate::specs::Calls::call_of))]
fn call_of(rows: &[StopRow], text: &CallText) -> StopCall
    ensures { result ≡ call_of rows.now text.now }
{
    let stop = text.stop.unwrap_or(0);
    StopCall {
        stop,
        link: stop_link(rows, stop),
        offset: text.offset.unwrap_or(0),
        wait: text.wait,
    }
}

/// The stop calls of the texts, each on the link of its stop.
pub fn calls_of(alloc: Global, rows: &[StopRow], texts: &[CallText]) -> Result<Calls, AllocError>
    ensures { IfOk result (λ calls. calls ≡ map (call_of rows.now) texts.now) }
{
    let mut calls = Vec::new(alloc);
    let mut rest = texts;
    while let [text, after @ ..] = rest {
        calls.push(call_of(rows, text))?;
        rest = after;
    }
    Ok(Calls { rows: calls })
}

fn first_place(links: &[u32], link: u32) -> Option<usize>
    ensures place { result ≡ position (nat_eq link) links.now }
    ensures within { IfSome result (λ place. place < length links.now) }
{
    links.iter().position(|other| link == *other)
}

/// Whether the calls can be served in order along the links.
#[tactic(auto, unfolding(rows::specs::Schedules::are_served))]
pub fn are_served(calls: &[StopCall], links: &[u32]) -> bool
    ensures { result ≡ are_served calls.now links.now }
{
    let mut left = calls;
    let mut rest = links;
    while let [call, after @ ..] = left {
        let Some(place) = first_place(rest, call.link) else {
            return false;
        };
        rest = rest.split_at(place).1;
        left = after;
    }
    true
}
