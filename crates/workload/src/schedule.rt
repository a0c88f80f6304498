//! stops.csv, routes.csv and departures.csv: one line with one route along the first row.

ghost use Rattle.std.specs.Prelude.{◌≡◌, ◌<◌, ◌≤◌, ◌+◌, ◌-◌, ◌∷◌, ◌++◌, codes, OnOk, IfOk, string_bytes};
ghost use Rattle.std.specs.List.{flat_map, range_with_len};
ghost use Rattle.plan_text.specs.Lines.{row_line};
ghost use Rattle.workload.specs.{Rows.stop_row, Rows.departure_row, Rows.call_text, Rows.link_name, Texts.stops_text, Texts.routes_text};
ghost use Rattle.workload.specs.{Texts.departures_text, declared.TheConstants.DEPARTURES, declared.TheConstants.MOST_SIZE};

use crate::{DEPARTURE_GAP, FIRST_DEPARTURE, SEATS, STOP_SECONDS};
use std::alloc::{AllocError, Global};

#[tactic(auto, unfolding(plan_text::specs::Lines::row_line))]
fn push_stop(stop: u32, text: &mut String) -> Result<(), AllocError>
    requires { stop < MOST_SIZE }
    ensures { OnOk result (string_bytes text.new ≡ string_bytes text.old ++ row_line (stop_row stop)) }
{
    let next = stop + 1;
    write!(text, "s{stop},l{stop}_{next}\n")
}

#[tactic(auto, using(crate::proofs::Lines::more_pieces), unfolding(crate::specs::Texts::stops_text))]
pub fn stops_text(alloc: Global, size: u32) -> Result<String, AllocError>
    requires some { 1 ≤ size }
    requires few { size ≤ MOST_SIZE }
    ensures { IfOk result (λ text. string_bytes text ≡ stops_text size) }
{
    let mut text = String::from_str(alloc, "stop,link\n")?;
    for stop in 0..size - 1 {
        push_stop(stop, &mut text)?;
    }
    Ok(text)
}

/// Appends the link of the route on which a stop lies.
fn push_link_name(stop: u32, text: &mut String) -> Result<(), AllocError>
    requires { stop < MOST_SIZE }
    ensures { OnOk result (string_bytes text.new ≡ string_bytes text.old ++ link_name (stop, stop + 1)) }
{
    let next = stop + 1;
    write!(text, "l{stop}_{next}")
}

/// Appends the call of the route at a stop.
fn push_call_text(stop: u32, text: &mut String) -> Result<(), AllocError>
    requires { stop < MOST_SIZE }
    ensures { OnOk result (string_bytes text.new ≡ string_bytes text.old ++ call_text stop) }
{
    let offset = stop * STOP_SECONDS;
    write!(text, "s{stop}:{offset}")
}

/// Appends a link of the route, behind others.
fn push_link(stop: u32, text: &mut String) -> Result<(), AllocError>
    requires { stop < MOST_SIZE }
    ensures { OnOk result (string_bytes text.new ≡ string_bytes text.old ++ (32 ∷ link_name (stop, stop + 1))) }
{
    let next = stop + 1;
    write!(text, " l{stop}_{next}")
}

/// Appends a call of the route, behind others.
fn push_call(stop: u32, text: &mut String) -> Result<(), AllocError>
    requires { stop < MOST_SIZE }
    ensures { OnOk result (string_bytes text.new ≡ string_bytes text.old ++ (32 ∷ call_text stop)) }
{
    let offset = stop * STOP_SECONDS;
    write!(text, " s{stop}:{offset}")
}

/// Appends the links of the route behind the first one.
#[tactic(auto, using(crate::proofs::Lines::more_from_one))]
fn push_links(size: u32, text: &mut String) -> Result<(), AllocError>
    requires some { 2 ≤ size }
    requires few { size ≤ MOST_SIZE }
    ensures { OnOk result (string_bytes text.new ≡ string_bytes text.old
        ++ flat_map (λ stop. 32 ∷ link_name (stop, stop + 1)) (range_with_len 1 (size - 1 - 1))) }
{
    for stop in 1..size - 1 {
        push_link(stop, text)?;
    }
    Ok(())
}

/// Appends the calls of the route behind the first one.
#[tactic(auto, using(crate::proofs::Lines::more_from_one))]
fn push_calls(size: u32, text: &mut String) -> Result<(), AllocError>
    requires some { 2 ≤ size }
    requires few { size ≤ MOST_SIZE }
    ensures { OnOk result (string_bytes text.new ≡ string_bytes text.old
        ++ flat_map (λ stop. 32 ∷ call_text stop) (range_with_len 1 (size - 1 - 1))) }
{
    for stop in 1..size - 1 {
        push_call(stop, text)?;
    }
    Ok(())
}

pub fn routes_text(alloc: Global, size: u32) -> Result<String, AllocError>
    requires some { 2 ≤ size }
    requires few { size ≤ MOST_SIZE }
    ensures { IfOk result (λ text. string_bytes text ≡ routes_text size) }
{
    let mut text = String::from_str(alloc, "line,route,links,stops\nbus,east,")?;
    push_link_name(0, &mut text)?;
    push_links(size, &mut text)?;
    text.push_str(",")?;
    push_call_text(0, &mut text)?;
    push_calls(size, &mut text)?;
    text.push_str("\n")?;
    Ok(text)
}

#[tactic(auto, unfolding(plan_text::specs::Lines::row_line))]
fn push_departure(departure: u32, text: &mut String) -> Result<(), AllocError>
    requires { departure < DEPARTURES }
    ensures { OnOk result (string_bytes text.new ≡ string_bytes text.old ++ row_line (departure_row departure)) }
{
    let second = FIRST_DEPARTURE + departure * DEPARTURE_GAP;
    write!(text, "d{departure},east,{second},{SEATS}\n")
}

#[tactic(auto, using(crate::proofs::Lines::more_pieces), unfolding(crate::specs::Texts::departures_text))]
pub fn departures_text(alloc: Global, count: u32) -> Result<String, AllocError>
    requires { count ≤ DEPARTURES }
    ensures { IfOk result (λ text. string_bytes text ≡ departures_text count) }
{
    let mut text = String::from_str(alloc, "departure,route,second,seats\n")?;
    for departure in 0..count {
        push_departure(departure, &mut text)?;
    }
    Ok(text)
}
