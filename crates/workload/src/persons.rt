//! plans.csv.

ghost use Rattle.std.specs.{List.flat_map, List.range_with_len, Prelude.◌≡◌, Prelude.◌<◌};
ghost use Rattle.std.specs.Prelude.{◌≤◌, ◌+◌, ◌^◌, ◌∷◌, ◌++◌, [], length, codes, decimal, OnOk, IfOk, string_bytes};
ghost use Rattle.plan_text.specs.Lines.{row_line};
ghost use Rattle.workload.specs.{Commuters.commuter, Rows.act_row, Rows.walk_row, Rows.leg_row, Rows.way_there, Rows.way_back};
ghost use Rattle.workload.specs.{Rows.person_rows, Texts.lines_of, Texts.person_lines, Texts.plans_text, declared.TheConstants.MOST_SIZE};

use crate::commuters::{Commute, Commuter, commuter_of};
use crate::links::grid_links;
use crate::{PERSONS_PER_NODE, WALK_SECONDS, WORK_SECONDS};
use std::alloc::{AllocError, Global};

#[tactic(auto, unfolding(plan_text::specs::Lines::row_line))]
fn push_act(
    person: u32,
    kind: &str,
    link: (u32, u32),
    end: Option<u32>,
    text: &mut String,
) -> Result<(), AllocError>
    ensures { OnOk result (string_bytes text.new ≡ string_bytes text.old ++ row_line (act_row person kind.now link end)) }
{
    let (from, to) = link;
    match end {
        Some(second) => write!(text, "p{person},0,act,{kind},l{from}_{to},{second},\n"),
        None => write!(text, "p{person},0,act,{kind},l{from}_{to},,\n"),
    }
}

#[tactic(auto, unfolding(plan_text::specs::Lines::row_line))]
fn push_teleport(person: u32, mode: &str, seconds: u32, text: &mut String) -> Result<(), AllocError>
    ensures { OnOk result (string_bytes text.new ≡ string_bytes text.old
        ++ row_line (leg_row person mode.now (decimal seconds) [])) }
{
    write!(text, "p{person},0,leg,{mode},,{seconds},\n")
}

fn push_walk(person: u32, text: &mut String) -> Result<(), AllocError>
    ensures { OnOk result (string_bytes text.new ≡ string_bytes text.old ++ row_line (walk_row person)) }
{
    push_teleport(person, "walk", WALK_SECONDS, text)
}

#[tactic(auto, unfolding(plan_text::specs::Lines::row_line))]
fn push_drive(person: u32, text: &mut String) -> Result<(), AllocError>
    ensures { OnOk result (string_bytes text.new ≡ string_bytes text.old ++ row_line (leg_row person (codes "car") [] [])) }
{
    write!(text, "p{person},0,leg,car,,,\n")
}

#[tactic(auto, unfolding(plan_text::specs::Lines::row_line))]
fn push_bus(size: u32, person: u32, text: &mut String) -> Result<(), AllocError>
    requires { 2 ≤ size }
    ensures { OnOk result (string_bytes text.new ≡ string_bytes text.old ++ row_line (way_there size person Commute.Bus)) }
{
    let last = size - 2;
    write!(text, "p{person},0,leg,pt,,,bus s0 s{last}\n")
}

fn push_way_there(
    size: u32,
    person: u32,
    commute: Commute,
    text: &mut String,
) -> Result<(), AllocError>
    requires { 2 ≤ size }
    ensures { OnOk result (string_bytes text.new ≡ string_bytes text.old ++ row_line (way_there size person commute)) }
{
    match commute {
        Commute::Bus => push_bus(size, person, text),
        Commute::Walk => push_walk(person, text),
        Commute::Car => push_drive(person, text),
    }
}

fn push_way_back(person: u32, commute: Commute, text: &mut String) -> Result<(), AllocError>
    ensures { OnOk result (string_bytes text.new ≡ string_bytes text.old ++ row_line (way_back person commute)) }
{
    match commute {
        Commute::Bus => push_walk(person, text),
        Commute::Walk => push_walk(person, text),
        Commute::Car => push_drive(person, text),
    }
}

/// Appends the plan of a person.
fn push_person(
    size: u32,
    person: u32,
    commuter: Commuter,
    text: &mut String,
) -> Result<(), AllocError>
    requires size { 2 ≤ size }
    requires leaves { commuter.leaves < 2 ^ 31 }
    ensures { OnOk result (string_bytes text.new ≡ string_bytes text.old ++ lines_of (person_rows size person commuter)) }
{
    let leaves_work = commuter.leaves + WORK_SECONDS;
    push_act(person, "home", commuter.home, Some(commuter.leaves), text)?;
    push_way_there(size, person, commuter.commute, text)?;
    push_act(person, "work", commuter.work, Some(leaves_work), text)?;
    push_way_back(person, commuter.commute, text)?;
    push_act(person, "home", commuter.home, None, text)?;
    Ok(())
}

/// Appends the plans of so many persons.
#[tactic(auto, using(crate::proofs::Lines::more_pieces))]
fn push_persons(
    size: u32,
    links: &[(u32, u32)],
    seed: u64,
    count: u32,
    text: &mut String,
) -> Result<(), AllocError>
    requires size { 2 ≤ size }
    requires few { length links.now < 2 ^ 32 }
    ensures { OnOk result (string_bytes text.new ≡ string_bytes text.old
        ++ flat_map (person_lines size links.now seed) (range_with_len 0 count)) }
{
    for person in 0..count {
        push_person(size, person, commuter_of(size, links, seed, person), text)?;
    }
    Ok(())
}

#[tactic(auto, unfolding(crate::specs::Texts::plans_text))]
pub fn plans_text(alloc: Global, size: u32, seed: u64) -> Result<String, AllocError>
    requires some { 2 ≤ size }
    requires few { size ≤ MOST_SIZE }
    ensures { IfOk result (λ text. string_bytes text ≡ plans_text size seed) }
{
    let links = grid_links(alloc, size)?;
    let mut text = String::from_str(alloc, "person,plan,kind,name,link,time,route\n")?;
    push_persons(
        size,
        &links,
        seed,
        PERSONS_PER_NODE * size * size,
        &mut text,
    )?;
    Ok(text)
}
