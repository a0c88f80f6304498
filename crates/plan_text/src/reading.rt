ghost use Rattle.std.specs.Prelude.{◌≡◌, ◌<◌, length, option_map, nat_lt, true, Some, IfOk, IfSome};
ghost use Rattle.std.specs.List.{list_all};
ghost use Rattle.rows.specs.{Plan.is_leg, Plan.has_end, Plan.are_acts, Plan.is_teleported, PlanRows.PlanRows, PlanRows.plan_rows};
ghost use Rattle.plan_text.specs.Lines.{IsBook, IsTextOf, is_act_in_book, is_leg_in_book, are_in_book, are_plan, is_plan_in};

use crate::elements::{Elements, elements_in};
use crate::writing::push_elements;
use events::{Book, Mode};
use limits::{LAST_SECOND, MAX_LEGS, MAX_ROUTE_LINKS};
use records::is_text;
use rows::{Act, Acts, Leg, Legs, Plan};
use std::alloc::{AllocError, Global};

fn has_end(act: Act) -> bool
    ensures { result ≡ has_end act }
{
    match act.end {
        None => false,
        Some(second) => second <= LAST_SECOND,
    }
}

/// Whether every activity but the last has a planned end.
#[tactic(auto, unfolding(rows::specs::Plan::are_acts))]
fn are_acts(acts: &[Act]) -> bool
    ensures { result ≡ are_acts acts.now }
{
    let [first, after @ ..] = acts else {
        return false;
    };
    let mut act = *first;
    let mut rest = after;
    while let [next, after @ ..] = rest {
        if !has_end(act) {
            return false;
        }
        act = *next;
        rest = after;
    }
    act.end.is_none()
}

fn is_teleported(mode: Mode) -> bool
    ensures { result ≡ is_teleported mode }
{
    match mode {
        Mode::Car => false,
        Mode::Walk => true,
        Mode::Bike => true,
        Mode::Ride => true,
        Mode::Pt => false,
    }
}

fn is_leg(leg: &Leg) -> bool
    ensures { result ≡ is_leg leg.now }
{
    match leg {
        Leg::Car { route } => route.rows.len() <= MAX_ROUTE_LINKS,
        Leg::Teleport { mode, seconds } => {
            is_teleported(*mode) && 1 <= *seconds && *seconds <= LAST_SECOND
        }
        Leg::Transit {
            line: _,
            access: _,
            egress: _,
        } => true,
    }
}

fn are_legs(legs: &[Leg]) -> bool
    ensures { result ≡ list_all is_leg legs.now }
{
    legs.iter().all(is_leg)
}

/// Whether a plan may have these activities and legs.
#[tactic(auto, using(std::proofs::lemmas::Bool::Decides::nat_tests), unfolding(crate::specs::Lines::are_plan))]
fn are_plan(acts: &[Act], legs: &[Leg]) -> bool
    ensures { result ≡ are_plan acts.now legs.now }
{
    if legs.len() > MAX_LEGS || acts.len() != legs.len() + 1 {
        return false;
    }
    if !are_acts(acts) {
        return false;
    }
    are_legs(legs)
}

fn is_act_in_book(book: &Book, act: Act) -> bool
    ensures { result ≡ is_act_in_book book.now act }
{
    act.kind < book.kinds.len() && act.link < book.links.len()
}

fn are_below(numbers: &[u32], end: u32) -> bool
    ensures { result ≡ list_all (λ number. nat_lt number end) numbers.now }
{
    numbers.iter().all(|number| *number < end)
}

fn is_leg_in_book(book: &Book, leg: &Leg) -> bool
    ensures { result ≡ is_leg_in_book book.now leg.now }
{
    match leg {
        Leg::Car { route } => are_below(&route.rows, book.links.len()),
        Leg::Teleport {
            mode: _,
            seconds: _,
        } => true,
        Leg::Transit {
            line,
            access,
            egress,
        } => {
            let stops = book.stops.len();
            *line < book.lines.len() && *access < stops && *egress < stops
        }
    }
}

fn are_acts_in(book: &Book, acts: &[Act]) -> bool
    ensures { result ≡ list_all (is_act_in_book book.now) acts.now }
{
    acts.iter().all(|act| is_act_in_book(book, *act))
}

fn are_legs_in(book: &Book, legs: &[Leg]) -> bool
    ensures { result ≡ list_all (is_leg_in_book book.now) legs.now }
{
    legs.iter().all(|leg| is_leg_in_book(book, leg))
}

/// Whether every number of the activities and legs has a name in the book.
#[tactic(auto, unfolding(crate::specs::Lines::are_in_book))]
fn are_in_book(book: &Book, acts: &[Act], legs: &[Leg]) -> bool
    ensures { result ≡ are_in_book book.now acts.now legs.now }
{
    are_acts_in(book, acts) && are_legs_in(book, legs)
}

/// Whether these are the activities and legs of a plan whose numbers have names in the book.
fn is_plan_in(book: &Book, acts: &[Act], legs: &[Leg]) -> bool
    ensures { result ≡ is_plan_in book.now (record { acts = acts.now; legs = legs.now }) }
{
    are_plan(acts, legs) && are_in_book(book, acts, legs)
}

/// The plan of these activities and legs.
#[tactic(auto, unfolding(crate::specs::Lines::are_plan))]
fn plan_of(acts: Vec<Act>, legs: Vec<Leg>) -> Plan
    requires { are_plan acts.items legs.items ≡ true }
    ensures { plan_rows result ≡ record { acts = acts.items; legs = legs.items } }
{
    Plan {
        acts: Acts { rows: acts },
        legs: Legs { rows: legs },
    }
}

/// The book's lists are lists of names: who calls this may rely on it.
pub fn know_names(book: &Book)
    ensures { IsBook book.now }
{
    let _ = book.persons.len();
    let _ = book.kinds.len();
    let _ = book.links.len();
    let _ = book.stops.len();
    let _ = book.lines.len();
}

/// Reads back what `write_plan` wrote of the plan of this number of a person: the one plan that
/// has these lines, or `None` exactly where no plan has them.
pub fn read_body(
    alloc: Global,
    bytes: &[u8],
    person: u32,
    index: u32,
    book: &Book,
) -> Result<Option<Plan>, AllocError>
    requires { person < length book.now.persons }
    ensures written { IfOk result (λ read. IfSome read (λ plan. IsTextOf person index book.now bytes.now (plan_rows plan))) }
    ensures read { IfOk result
        (λ read. (plan : PlanRows) → IsTextOf person index book.now bytes.now plan → option_map plan_rows read ≡ Some plan) }
{
    know_names(book);
    let Elements { acts, legs } = elements_in(alloc, bytes, book)?;
    if !is_plan_in(book, &acts, &legs) {
        return Ok(None);
    }
    let mut text = Vec::new(alloc);
    push_elements(book, person, index, &acts, &legs, &mut text)?;
    if !is_text(&text, bytes) {
        return Ok(None);
    }
    Ok(Some(plan_of(acts, legs)))
}
