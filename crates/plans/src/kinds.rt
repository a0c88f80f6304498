ghost use Rattle.std.specs.Prelude.{◌≡◌, ◌<◌, ◌≤◌, IfSome};
ghost use Rattle.csv.specs.Records.{fields_of};
ghost use Rattle.plans.specs.Kinds.{kind_of, is_act, is_leg, is_car, plan_in, plan_number, end_in, seconds_in};

use csv::ByteRecord;
use events::Mode;
use limits::{LAST_SECOND, MAX_PLANS};
use records::{field, is_text, number_in};

/// What a row of plans.csv is.
#[derive(Clone, Copy)]
pub enum ElementKind {
    Act,
    /// A leg, of this mode where it is one.
    Leg(Option<Mode>),
    Neither,
}

/// What the row is.
#[tactic(auto, unfolding(crate::specs::Kinds::kind_of))]
pub fn kind_of(row: &ByteRecord) -> ElementKind
    ensures { result ≡ kind_of (fields_of row.now) }
{
    if is_text(field(row, 2), b"act") {
        return ElementKind::Act;
    }
    if is_text(field(row, 2), b"leg") {
        return ElementKind::Leg(Mode::read(field(row, 3)));
    }
    ElementKind::Neither
}

pub fn is_act(kind: ElementKind) -> bool
    ensures { result ≡ is_act kind }
{
    match kind {
        ElementKind::Act => true,
        ElementKind::Leg(_) => false,
        ElementKind::Neither => false,
    }
}

pub fn is_leg(kind: ElementKind) -> bool
    ensures { result ≡ is_leg kind }
{
    match kind {
        ElementKind::Act => false,
        ElementKind::Leg(_) => true,
        ElementKind::Neither => false,
    }
}

pub fn is_car(kind: ElementKind) -> bool
    ensures { result ≡ is_car kind }
{
    match kind {
        ElementKind::Act => false,
        ElementKind::Leg(Some(Mode::Car)) => true,
        ElementKind::Leg(Some(_)) => false,
        ElementKind::Leg(None) => false,
        ElementKind::Neither => false,
    }
}

/// The number of the row's plan, where it is one.
pub fn plan_in(row: &ByteRecord) -> Option<u32>
    ensures number { result ≡ plan_in (fields_of row.now) }
    ensures few { IfSome result (λ n. n < MAX_PLANS) }
{
    number_in(field(row, 1), 0, MAX_PLANS - 1)
}

/// The number of the row's plan, or 0 where it is none.
#[tactic(auto, unfolding(crate::specs::Kinds::plan_number))]
pub fn plan_number(row: &ByteRecord) -> u32
    ensures number { result ≡ plan_number (fields_of row.now) }
    ensures few { result < MAX_PLANS }
{
    match plan_in(row) {
        Some(number) => number,
        None => 0,
    }
}

/// The planned end of the activity that the row is, where it has one.
pub fn end_in(row: &ByteRecord) -> Option<u32>
    ensures end { result ≡ end_in (fields_of row.now) }
    ensures within { IfSome result (λ end. end ≤ LAST_SECOND) }
{
    number_in(field(row, 5), 0, LAST_SECOND)
}

/// The seconds of the teleported leg that the row is, where it has them.
pub fn seconds_in(row: &ByteRecord) -> Option<u32>
    ensures seconds { result ≡ seconds_in (fields_of row.now) }
    ensures within { IfSome result (λ seconds. (1 ≤ seconds) × (seconds ≤ LAST_SECOND)) }
{
    number_in(field(row, 5), 1, LAST_SECOND)
}
