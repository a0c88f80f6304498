ghost use Rattle.std.specs.Prelude.{◌≡◌, ◌<◌, ◌+◌, ◌++◌, length, drop, true, OnOk, OnErr, IfOk};
ghost use Rattle.events.specs.Words.{mode_text};
ghost use Rattle.rows.specs.{Plan.mode_of_leg, PlanRows.plan_rows};
ghost use Rattle.plan_text.specs.Lines.{end_text, seconds_text, route_text, row_line, act_row, leg_row, element_lines};
ghost use Rattle.plan_text.specs.Lines.{plan_lines, is_act_in_book, is_leg_in_book, are_in_book, are_plan, is_plan_in};

use crate::fields::{names_of, push_joined, push_row};
use events::{Book, Mode};
use itoa::Buffer;
use rows::{Act, Leg, Plan};
use std::alloc::{AllocError, Global};

/// The end in its field, written into the buffer where there is one.
fn end_bytes(end: Option<u32>, buffer: &mut Buffer) -> &[u8]
    ensures { result.now ≡ end_text end }
{
    match end {
        Some(second) => buffer.format(second).as_bytes(),
        None => b"",
    }
}

/// Appends the row of an activity.
#[tactic(auto, using(std::proofs::lemmas::Bool::Decides::nat_tests), unfolding(crate::specs::Lines::act_row))]
fn push_act(
    book: &Book,
    person: u32,
    index: u32,
    act: Act,
    text: &mut Vec<u8>,
) -> Result<(), AllocError>
    requires person { person < length book.now.persons }
    requires act { is_act_in_book book.now act ≡ true }
    ensures { OnOk result (text.new.items ≡ text.old.items ++ row_line (act_row book.now person index act)) }
{
    let mut number = Buffer::new();
    let mut end = Buffer::new();
    let row = [
        book.persons.get(person),
        number.format(index).as_bytes(),
        b"act".as_slice(),
        book.kinds.get(act.kind),
        book.links.get(act.link),
        end_bytes(act.end, &mut end),
        b"".as_slice(),
    ];
    push_row(&row, text)
}

fn mode_of_leg(leg: &Leg) -> Mode
    ensures { result ≡ mode_of_leg leg.now }
{
    match leg {
        Leg::Car { route: _ } => Mode::Car,
        Leg::Teleport { mode, seconds: _ } => *mode,
        Leg::Transit {
            line: _,
            access: _,
            egress: _,
        } => Mode::Pt,
    }
}

/// The name of a leg's mode.
fn mode_bytes(leg: &Leg) -> &[u8]
    ensures { result.now ≡ mode_text (mode_of_leg leg.now) }
{
    mode_of_leg(leg).name().as_bytes()
}

/// The seconds of a leg in their field, written into the buffer where there are some.
fn seconds_bytes<'a>(leg: &Leg, buffer: &'a mut Buffer) -> &'a [u8]
    ensures { result.now ≡ seconds_text leg.now }
{
    match leg {
        Leg::Car { route: _ } => b"",
        Leg::Teleport { mode: _, seconds } => buffer.format(*seconds).as_bytes(),
        Leg::Transit {
            line: _,
            access: _,
            egress: _,
        } => b"",
    }
}

/// The names of a leg's route, joined by single spaces.
#[tactic(auto, using(std::proofs::lemmas::Bool::Decides::nat_tests), unfolding(crate::specs::Lines::route_text))]
fn route_bytes(alloc: Global, book: &Book, leg: &Leg) -> Result<Vec<u8>, AllocError>
    requires { is_leg_in_book book.now leg.now ≡ true }
    ensures { IfOk result (λ text. text.items ≡ route_text book.now leg.now) }
{
    let mut text = Vec::new(alloc);
    match leg {
        Leg::Car { route } => {
            let items = names_of(alloc, &book.links, &route.rows)?;
            push_joined(&items, b' ', &mut text)?;
            Ok(text)
        }
        Leg::Teleport {
            mode: _,
            seconds: _,
        } => Ok(text),
        Leg::Transit {
            line,
            access,
            egress,
        } => {
            let items = [
                book.lines.get(*line),
                book.stops.get(*access),
                book.stops.get(*egress),
            ];
            push_joined(&items, b' ', &mut text)?;
            Ok(text)
        }
    }
}

/// Appends the row of a leg.
#[tactic(auto, unfolding(crate::specs::Lines::leg_row))]
fn push_leg(
    book: &Book,
    person: u32,
    index: u32,
    leg: &Leg,
    text: &mut Vec<u8>,
) -> Result<(), AllocError>
    requires person { person < length book.now.persons }
    requires leg { is_leg_in_book book.now leg.now ≡ true }
    ensures { OnOk result (text.new.items ≡ text.old.items ++ row_line (leg_row book.now person index leg.now)) }
{
    let route = route_bytes(*text.allocator(), book, leg)?;
    let mut number = Buffer::new();
    let mut seconds = Buffer::new();
    let row = [
        book.persons.get(person),
        number.format(index).as_bytes(),
        b"leg".as_slice(),
        mode_bytes(leg),
        b"".as_slice(),
        seconds_bytes(leg, &mut seconds),
        route.as_slice(),
    ];
    push_row(&row, text)
}

/// Appends the row of the activity at a place, and that of the leg behind it, where there is one.
fn push_element(
    book: &Book,
    person: u32,
    index: u32,
    acts: &[Act],
    legs: &[Leg],
    place: usize,
    text: &mut Vec<u8>,
) -> Result<(), AllocError>
    requires person { person < length book.now.persons }
    requires named { are_in_book book.now acts.now legs.now ≡ true }
    requires place { place < length acts.now }
    ensures { OnOk result
        (text.new.items ++ element_lines book.now person index (drop (place + 1) acts.now) (drop (place + 1) legs.now)
        ≡ text.old.items ++ element_lines book.now person index (drop place acts.now) (drop place legs.now)) }
{
    push_act(book, person, index, acts[place], text)?;
    if place >= legs.len() {
        return Ok(());
    }
    push_leg(book, person, index, &legs[place], text)?;
    Ok(())
}

/// Appends the rows of activities and of the legs between them.
pub fn push_elements(
    book: &Book,
    person: u32,
    index: u32,
    acts: &[Act],
    legs: &[Leg],
    text: &mut Vec<u8>,
) -> Result<(), AllocError>
    requires person { person < length book.now.persons }
    requires named { are_in_book book.now acts.now legs.now ≡ true }
    ensures { OnOk result (text.new.items ≡ text.old.items ++ element_lines book.now person index acts.now legs.now) }
{
    for place in 0..acts.len() {
        push_element(book, person, index, acts, legs, place, text)?;
    }
    Ok(())
}

/// Activities and legs of a plan are such as a plan may have.
#[tactic(auto, using(std::proofs::lemmas::Bool::Decides::nat_tests), unfolding(crate::specs::Lines::are_plan))]
fn know_plan(plan: &Plan)
    ensures { are_plan plan.now.acts plan.now.legs ≡ true }
{
    let _ = plan.legs.rows.len();
}

/// Appends the rows of a plan, each a line, as the plan of this number of a person; or appends
/// nothing where there is no memory.
pub fn write_plan(
    person: u32,
    index: u32,
    plan: &Plan,
    book: &Book,
    out: &mut Vec<u8>,
) -> Result<(), AllocError>
    requires person { person < length book.now.persons }
    requires named { are_in_book book.now plan.now.acts plan.now.legs ≡ true }
    ensures ok { OnOk result (out.new.items ≡ out.old.items ++ plan_lines person index (plan_rows plan.now) book.now) }
    ensures err { OnErr result (out.new.items ≡ out.old.items) }
    ensures readable { is_plan_in book.now (plan_rows plan.now) ≡ true }
{
    know_plan(plan);
    let mut text = Vec::new(*out.allocator());
    push_elements(
        book,
        person,
        index,
        &plan.acts.rows,
        &plan.legs.rows,
        &mut text,
    )?;
    out.extend_from_slice(&text)
}
