ghost use Rattle.std.specs.Prelude.{◌≡◌, ◌++◌, map, option_map, option_to_list, IfOk};
ghost use Rattle.records.specs.{Lists.parts_of, Lists.numbers_of, Numbers.number_in};
ghost use Rattle.plan_text.specs.Elements.{act_in, transit_in, leg_by, leg_in, rows_in, acts_in, legs_in};

use events::{Book, Mode, Route};
use limits::LAST_SECOND;
use records::{is_text, items_in, number_in, numbers_of, part, parts_of};
use rows::{Act, Leg};
use std::alloc::{AllocError, Global};

/// The activities and the legs of the plan that a text may be.
#[derive(Drop)]
pub struct Elements {
    pub acts: Vec<Act>,
    pub legs: Vec<Leg>,
}

/// The activity that a row says.
#[tactic(auto, unfolding(crate::specs::Elements::act_in))]
fn act_in(row: &[&[u8]], book: &Book) -> Option<Act>
    ensures { result ≡ act_in book.now (map (λ cell. cell.now) row.now) }
{
    if !is_text(part(row, 2), b"act") {
        return None;
    }
    let Some(kind) = book.kinds.find(part(row, 3)) else {
        return None;
    };
    let Some(link) = book.links.find(part(row, 4)) else {
        return None;
    };
    let end = number_in(part(row, 5), 0, LAST_SECOND);
    Some(Act { kind, link, end })
}

/// The leg by car over the links that the items name.
fn car_leg(alloc: Global, items: &[&[u8]], book: &Book) -> Result<Option<Leg>, AllocError>
    ensures { IfOk result
        (λ leg. leg ≡ option_map (λ route. Leg.Car route) (numbers_of (map (λ item. item.now) items.now) book.now.links)) }
{
    match numbers_of(alloc, items, &book.links)? {
        None => Ok(None),
        Some(rows) => Ok(Some(Leg::Car {
            route: Route { rows },
        })),
    }
}

/// The leg by the line and between the stops that the items name.
fn transit_leg(items: &[&[u8]], book: &Book) -> Option<Leg>
    ensures { result ≡ transit_in book.now (map (λ item. item.now) items.now) }
{
    let Some(line) = book.lines.find(part(items, 0)) else {
        return None;
    };
    let Some(access) = book.stops.find(part(items, 1)) else {
        return None;
    };
    let Some(egress) = book.stops.find(part(items, 2)) else {
        return None;
    };
    Some(Leg::Transit {
        line,
        access,
        egress,
    })
}

/// The leg of a mode that takes the seconds in the field.
fn teleported_leg(mode: Mode, seconds: &[u8]) -> Option<Leg>
    ensures { result ≡ option_map (λ seconds. Leg.Teleport mode seconds) (number_in 1 LAST_SECOND seconds.now) }
{
    match number_in(seconds, 1, LAST_SECOND) {
        None => None,
        Some(seconds) => Some(Leg::Teleport { mode, seconds }),
    }
}

/// The leg of a mode that a row says.
#[tactic(auto, unfolding(crate::specs::Elements::leg_by))]
fn leg_by(alloc: Global, mode: Mode, row: &[&[u8]], book: &Book) -> Result<Option<Leg>, AllocError>
    ensures { IfOk result (λ leg. leg ≡ leg_by book.now mode (map (λ cell. cell.now) row.now)) }
{
    let items = items_in(alloc, part(row, 6))?;
    match mode {
        Mode::Car => car_leg(alloc, &items, book),
        Mode::Pt => Ok(transit_leg(&items, book)),
        Mode::Walk => Ok(teleported_leg(Mode::Walk, part(row, 5))),
        Mode::Bike => Ok(teleported_leg(Mode::Bike, part(row, 5))),
        Mode::Ride => Ok(teleported_leg(Mode::Ride, part(row, 5))),
    }
}

/// The leg that a row says.
#[tactic(auto, unfolding(crate::specs::Elements::leg_in))]
fn leg_in(alloc: Global, row: &[&[u8]], book: &Book) -> Result<Option<Leg>, AllocError>
    ensures { IfOk result (λ leg. leg ≡ leg_in book.now (map (λ cell. cell.now) row.now)) }
{
    if !is_text(part(row, 2), b"leg") {
        return Ok(None);
    }
    match Mode::read(part(row, 3)) {
        None => Ok(None),
        Some(mode) => leg_by(alloc, mode, row, book),
    }
}

/// The items, and one more where there is one.
fn with_item<T: Drop>(items: Vec<T>, item: Option<T>) -> Result<Vec<T>, AllocError>
    ensures { IfOk result (λ more. more.items ≡ items.items ++ option_to_list item) }
{
    let mut items = items;
    match item {
        None => Ok(items),
        Some(item) => {
            items.push(item)?;
            Ok(items)
        }
    }
}

/// One more line, with what it says.
fn with_line(
    alloc: Global,
    read: Elements,
    line: &[u8],
    book: &Book,
) -> Result<Elements, AllocError>
    ensures acts { IfOk result (λ r. r.acts.items ≡ read.acts.items ++ option_to_list (act_in book.now (parts_of 44 line.now))) }
    ensures legs { IfOk result (λ r. r.legs.items ≡ read.legs.items ++ option_to_list (leg_in book.now (parts_of 44 line.now))) }
{
    let row = parts_of(alloc, line, b',')?;
    let Elements { acts, legs } = read;
    let acts = with_item(acts, act_in(&row, book))?;
    let leg = leg_in(alloc, &row, book)?;
    let legs = with_item(legs, leg)?;
    Ok(Elements { acts, legs })
}

/// What the lines of a text say.
#[tactic(auto, unfolding(crate::specs::Elements::rows_in))]
pub fn elements_in(alloc: Global, bytes: &[u8], book: &Book) -> Result<Elements, AllocError>
    ensures acts { IfOk result (λ r. r.acts.items ≡ acts_in book.now (rows_in bytes.now)) }
    ensures legs { IfOk result (λ r. r.legs.items ≡ legs_in book.now (rows_in bytes.now)) }
{
    let lines = parts_of(alloc, bytes, b'\n')?;
    let mut read = Elements {
        acts: Vec::new(alloc),
        legs: Vec::new(alloc),
    };
    let mut rest = lines.as_slice();
    while let [line, after @ ..] = rest {
        read = with_line(alloc, read, line, book)?;
        rest = after;
    }
    Ok(read)
}
