ghost use Rattle.std.specs.Prelude.{◌≡◌, length, map, option_map, get_or, true};
ghost use Rattle.csv.specs.Records.{fields_of};
ghost use Rattle.events.specs.Names.{number_of};
ghost use Rattle.records.specs.{Fields.field, Lists.items_in, Lists.numbers_of};
ghost use Rattle.plans.specs.Kinds.{kind_of, is_car, items_of};
ghost use Rattle.plans.specs.Refusals.{has_surplus, is_misfit, lacks_element_name, lacks_name, has_bad_time, has_bad_number, lacks_link};
ghost use Rattle.plans.specs.Refusals.{is_broken, lacks_mode, is_one_too_many, kind_reason, row_reason, comes_again};
ghost use Rattle.rows.specs.Joined.{is_joined};

use crate::kinds::{ElementKind, end_in, is_car, is_leg, kind_of, plan_in, seconds_in};
use crate::orders::{begins_person, is_out_of_order};
use csv::ByteRecord;
use edge_files::Reason;
use events::{Mode, Names};
use limits::{MAX_LEGS, MAX_PERSONS, MAX_ROUTE_LINKS};
use records::{are_names, field, holds_name, is_blank};
use rows::is_joined;

/// What a row names: the items of its route, its link, and the links of its route where it is a
/// leg by car.
#[derive(Drop)]
pub struct Named<'a> {
    pub items: Vec<&'a [u8]>,
    pub link: Option<u32>,
    pub route: Option<Vec<u32>>,
}

/// A row between the rows beside it, where there are such.
#[derive(Drop)]
pub struct Between<'a> {
    pub before: Option<&'a ByteRecord>,
    pub row: &'a ByteRecord,
    pub next: Option<&'a ByteRecord>,
}

/// Whether a field has bytes that is empty for such an element.
#[tactic(auto, unfolding(crate::specs::Refusals::has_surplus))]
fn has_surplus(kind: ElementKind, row: &ByteRecord) -> bool
    ensures { result ≡ has_surplus kind (fields_of row.now) }
{
    match kind {
        ElementKind::Act => !is_blank(row, 6),
        ElementKind::Leg(Some(Mode::Car)) => !(is_blank(row, 4) && is_blank(row, 5)),
        ElementKind::Leg(Some(Mode::Pt)) => !(is_blank(row, 4) && is_blank(row, 5)),
        ElementKind::Leg(Some(_)) => !(is_blank(row, 4) && is_blank(row, 6)),
        ElementKind::Leg(None) => false,
        ElementKind::Neither => false,
    }
}

/// Whether a name that the element needs is none.
#[tactic(auto, unfolding(crate::specs::Refusals::lacks_element_name))]
fn lacks_element_name(kind: ElementKind, row: &ByteRecord, items: &[&[u8]]) -> bool
    requires { map (λ item. item.now) items.now ≡ items_of (fields_of row.now) }
    ensures { result ≡ lacks_element_name kind (fields_of row.now) }
{
    match kind {
        ElementKind::Act => !(holds_name(row, 3) && holds_name(row, 4)),
        ElementKind::Leg(Some(Mode::Car)) => !are_names(items),
        ElementKind::Leg(Some(Mode::Pt)) => !(items.len() == 3 && are_names(items)),
        ElementKind::Leg(Some(_)) => false,
        ElementKind::Leg(None) => false,
        ElementKind::Neither => false,
    }
}

/// Whether the time of the element is none, or out of range.
#[tactic(auto, unfolding(crate::specs::Refusals::has_bad_time))]
fn has_bad_time(kind: ElementKind, row: &ByteRecord) -> bool
    ensures { result ≡ has_bad_time kind (fields_of row.now) }
{
    match kind {
        ElementKind::Act => !is_blank(row, 5) && end_in(row).is_none(),
        ElementKind::Leg(Some(Mode::Car)) => false,
        ElementKind::Leg(Some(Mode::Pt)) => false,
        ElementKind::Leg(Some(_)) => seconds_in(row).is_none(),
        ElementKind::Leg(None) => false,
        ElementKind::Neither => false,
    }
}

/// Whether a link of the element does not exist.
#[tactic(auto, unfolding(crate::specs::Refusals::lacks_link))]
fn lacks_link(kind: ElementKind, row: &ByteRecord, named: &Named, links: &Names) -> bool
    requires link { named.now.link ≡ number_of (field (fields_of row.now) 4) links.now }
    requires route { is_car kind ≡ true → option_map (λ route. route.items) named.now.route
        ≡ numbers_of (items_of (fields_of row.now)) links.now }
    ensures { result ≡ lacks_link links.now kind (fields_of row.now) }
{
    match kind {
        ElementKind::Act => named.link.is_none(),
        ElementKind::Leg(Some(Mode::Car)) => named.route.is_none(),
        ElementKind::Leg(Some(_)) => false,
        ElementKind::Leg(None) => false,
        ElementKind::Neither => false,
    }
}

/// Whether a link of the car route does not begin where the one before it ends.
fn is_broken(
    named: &Named,
    links: &Names,
    ends: &[(u32, u32)],
    kind: ElementKind,
    row: &ByteRecord,
) -> bool
    requires route { is_car kind ≡ true → option_map (λ route. route.items) named.now.route
        ≡ numbers_of (items_of (fields_of row.now)) links.now }
    ensures { result ≡ is_broken links.now ends.now kind (fields_of row.now) }
{
    if !is_car(kind) {
        return false;
    }
    match &named.route {
        Some(route) => !is_joined(ends, route),
        None => !is_joined(ends, &[]),
    }
}

fn lacks_mode(kind: ElementKind) -> bool
    ensures { result ≡ lacks_mode kind }
{
    match kind {
        ElementKind::Leg(None) => true,
        ElementKind::Leg(Some(_)) => false,
        ElementKind::Act => false,
        ElementKind::Neither => false,
    }
}

/// Whether the row is the first of the 65,537th person, the ninth leg of its plan, or a car route of
/// more than 1,000 links.
fn is_one_too_many(
    persons: &Names,
    legs: usize,
    before: Option<&ByteRecord>,
    kind: ElementKind,
    row: &ByteRecord,
    items: &[&[u8]],
) -> bool
    requires { map (λ item. item.now) items.now ≡ items_of (fields_of row.now) }
    ensures { result ≡ is_one_too_many persons.now legs (option_map (λ r. fields_of r.now) before.entry) kind (fields_of row.now) }
{
    (begins_person(before, row) && persons.len() >= MAX_PERSONS)
        || (is_leg(kind) && legs >= MAX_LEGS)
        || (is_car(kind) && items.len() > MAX_ROUTE_LINKS)
}

/// Whether a name that the row needs is none.
fn lacks_name(kind: ElementKind, row: &ByteRecord, items: &[&[u8]]) -> bool
    requires { map (λ item. item.now) items.now ≡ items_of (fields_of row.now) }
    ensures { result ≡ lacks_name kind (fields_of row.now) }
{
    !holds_name(row, 0) || lacks_element_name(kind, row, items)
}

/// Whether the person has earlier rows with another person's row between.
fn comes_again(persons: &Names, before: Option<&ByteRecord>, row: &ByteRecord) -> bool
    ensures { result ≡ comes_again persons.now (option_map (λ r. fields_of r.now) before.entry) (fields_of row.now) }
{
    begins_person(before, row) && persons.find(field(row, 0)).is_some()
}

/// The least reason against a row, by the rows beside it, the persons before it, and the legs of its
/// plan before it.
#[tactic(auto, unfolding(crate::specs::Refusals::row_reason))]
pub fn refusal(
    links: &Names,
    ends: &[(u32, u32)],
    persons: &Names,
    legs: usize,
    between: &Between,
    named: &Named,
) -> Option<Reason>
    requires items { map (λ item. item.now) named.now.items.items ≡ items_of (fields_of between.now.row.now) }
    requires link { named.now.link ≡ number_of (field (fields_of between.now.row.now) 4) links.now }
    requires route { is_car (kind_of (fields_of between.now.row.now)) ≡ true → option_map (λ route. route.items) named.now.route
        ≡ numbers_of (items_of (fields_of between.now.row.now)) links.now }
    ensures { result ≡ row_reason links.now ends.now persons.now legs (option_map (λ r. fields_of r.now) between.now.before)
        (fields_of between.now.row.now) (option_map (λ r. fields_of r.now) between.now.next) }
{
    let Between { before, row, next } = *between;
    let kind = kind_of(row);
    if row.len() != 7 || has_surplus(kind, row) {
        return Some(Reason::FieldCount);
    }
    if lacks_name(kind, row, &named.items) {
        return Some(Reason::BadName);
    }
    if plan_in(row).is_none() || has_bad_time(kind, row) {
        return Some(Reason::BadNumber);
    }
    if comes_again(persons, before, row) {
        return Some(Reason::Twice);
    }
    if lacks_link(kind, row, named, links) {
        return Some(Reason::Unknown);
    }
    if is_out_of_order(before, kind, row, next) {
        return Some(Reason::Order);
    }
    if is_broken(named, links, ends, kind, row) {
        return Some(Reason::RouteBroken);
    }
    if lacks_mode(kind) {
        return Some(Reason::ModeUnknown);
    }
    if is_one_too_many(persons, legs, before, kind, row, &named.items) {
        return Some(Reason::TooMany);
    }
    None
}
