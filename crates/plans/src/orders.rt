ghost use Rattle.std.specs.Prelude.{◌≡◌, length, option_map};
ghost use Rattle.csv.specs.Records.{fields_of};
ghost use Rattle.records.specs.Fields.{field, holds_name};
ghost use Rattle.plans.specs.Kinds.{kind_of, plan_in, plan_number};
ghost use Rattle.plans.specs.Refusals.{same_person, same_plan, begins_person, begins_plan, is_neither, starts_late, jumps, begins_with_leg};
ghost use Rattle.plans.specs.Refusals.{repeats, follows_endless, is_of_other_plan, ends_plan, ends_with_leg, is_out_of_order};

use crate::kinds::{ElementKind, end_in, is_act, is_leg, kind_of, plan_in, plan_number};
use csv::ByteRecord;
use records::{field, holds_name};

/// Whether two rows are of one person.
#[tactic(auto, unfolding(crate::specs::Refusals::same_person))]
fn same_person(row: &ByteRecord, other: &ByteRecord) -> bool
    ensures { result ≡ same_person (fields_of row.now) (fields_of other.now) }
{
    field(row, 0) == field(other, 0)
}

/// Whether two rows are of one plan.
#[tactic(auto, unfolding(crate::specs::Refusals::same_plan))]
fn same_plan(row: &ByteRecord, other: &ByteRecord) -> bool
    ensures { result ≡ same_plan (fields_of row.now) (fields_of other.now) }
{
    same_person(row, other) && plan_number(row) == plan_number(other)
}

/// Whether the row before is of another person, or there is none.
pub fn begins_person(before: Option<&ByteRecord>, row: &ByteRecord) -> bool
    ensures { result ≡ begins_person (option_map (λ r. fields_of r.now) before.entry) (fields_of row.now) }
{
    match before {
        None => true,
        Some(before) => !same_person(before, row),
    }
}

/// Whether the row before is of another plan, or there is none.
pub fn begins_plan(before: Option<&ByteRecord>, row: &ByteRecord) -> bool
    ensures { result ≡ begins_plan (option_map (λ r. fields_of r.now) before.entry) (fields_of row.now) }
{
    match before {
        None => true,
        Some(before) => !same_plan(before, row),
    }
}

/// Whether a new person's plan has a number other than 0.
fn starts_late(before: Option<&ByteRecord>, row: &ByteRecord) -> bool
    ensures { result ≡ starts_late (option_map (λ r. fields_of r.now) before.entry) (fields_of row.now) }
{
    begins_person(before, row) && plan_number(row) != 0
}

/// Whether the plan's number is neither that of the person's row before nor one more.
fn jumps(before: Option<&ByteRecord>, row: &ByteRecord) -> bool
    ensures { result ≡ jumps (option_map (λ r. fields_of r.now) before.entry) (fields_of row.now) }
{
    let Some(before) = before else {
        return false;
    };
    if !same_person(before, row) {
        return false;
    }
    let earlier = plan_number(before);
    let number = plan_number(row);
    number != earlier && number != earlier + 1
}

/// Whether an activity stands behind an activity of the plan, or a leg behind a leg.
fn repeats(before: Option<&ByteRecord>, kind: ElementKind, row: &ByteRecord) -> bool
    ensures { result ≡ repeats (option_map (λ r. fields_of r.now) before.entry) kind (fields_of row.now) }
{
    let Some(before) = before else {
        return false;
    };
    if !same_plan(before, row) {
        return false;
    }
    let earlier = kind_of(before);
    (is_act(kind) && is_act(earlier)) || (is_leg(kind) && is_leg(earlier))
}

/// Whether a leg stands behind an activity of the plan that has no planned end.
fn follows_endless(before: Option<&ByteRecord>, kind: ElementKind, row: &ByteRecord) -> bool
    ensures { result ≡ follows_endless (option_map (λ r. fields_of r.now) before.entry) kind (fields_of row.now) }
{
    let Some(before) = before else {
        return false;
    };
    is_leg(kind) && same_plan(before, row) && is_act(kind_of(before)) && end_in(before).is_none()
}

/// Whether the next row is of another person, or of another plan of this person.
fn is_of_other_plan(row: &ByteRecord, next: &ByteRecord) -> bool
    ensures { result ≡ is_of_other_plan (fields_of row.now) (fields_of next.now) }
{
    if same_person(row, next) {
        return plan_in(next).is_some() && plan_number(row) != plan_number(next);
    }
    holds_name(next, 0)
}

/// Whether no row of the plan follows.
#[tactic(auto, unfolding(crate::specs::Refusals::ends_plan))]
fn ends_plan(row: &ByteRecord, next: Option<&ByteRecord>) -> bool
    ensures { result ≡ ends_plan (fields_of row.now) (option_map (λ r. fields_of r.now) next.entry) }
{
    match next {
        None => true,
        Some(next) => next.len() == 7 && is_of_other_plan(row, next),
    }
}

/// Whether the row is neither an activity nor a leg.
fn is_neither(kind: ElementKind) -> bool
    ensures { result ≡ is_neither kind }
{
    !is_act(kind) && !is_leg(kind)
}

/// Whether a plan begins with a leg.
fn begins_with_leg(before: Option<&ByteRecord>, kind: ElementKind, row: &ByteRecord) -> bool
    ensures { result ≡ begins_with_leg (option_map (λ r. fields_of r.now) before.entry) kind (fields_of row.now) }
{
    begins_plan(before, row) && is_leg(kind)
}

/// Whether the row is a leg that no row of its plan follows.
fn ends_with_leg(kind: ElementKind, row: &ByteRecord, next: Option<&ByteRecord>) -> bool
    ensures { result ≡ ends_with_leg kind (fields_of row.now) (option_map (λ r. fields_of r.now) next.entry) }
{
    is_leg(kind) && ends_plan(row, next)
}

/// Whether the row breaks the order of persons, plans and elements.
pub fn is_out_of_order(
    before: Option<&ByteRecord>,
    kind: ElementKind,
    row: &ByteRecord,
    next: Option<&ByteRecord>,
) -> bool
    ensures { result ≡ is_out_of_order (option_map (λ r. fields_of r.now) before.entry) kind (fields_of row.now)
        (option_map (λ r. fields_of r.now) next.entry) }
{
    is_neither(kind)
        || starts_late(before, row)
        || jumps(before, row)
        || begins_with_leg(before, kind, row)
        || repeats(before, kind, row)
        || follows_endless(before, kind, row)
        || ends_with_leg(kind, row, next)
}
