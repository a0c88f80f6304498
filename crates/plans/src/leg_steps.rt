ghost use Rattle.std.specs.Prelude.{◌≡◌, ◌<◌, ◌≤◌, ℕ, List, length, map, option_map, true, false, IfOk, OnOk, IfSome};
ghost use Rattle.std.specs.Prelude.{is_some, Some, get_or};
ghost use Rattle.csv.specs.Records.{fields_of};
ghost use Rattle.limits.specs.declared.TheConstants.{MAX_ROUTE_LINKS};
ghost use Rattle.events.specs.Names.{number_of, with_name};
ghost use Rattle.records.specs.Lists.{numbers_of, are_names};
ghost use Rattle.plans.specs.{Refusals.lacks_element_name, Refusals.has_bad_time, Refusals.lacks_link, Kinds.is_car, Kinds.is_transit};
ghost use Rattle.plans.specs.{Kinds.items_of, Kinds.item, Kinds.seconds_in, Values.number_in_table, Values.leg_by, Progress.LegAble};
ghost use Rattle.plans.specs.{Progress.step_leg, Progress.lines_with, Progress.stops_with, Progress.ends_well, Read.progress_of};
ghost use Rattle.plans.specs.declared.kinds.ElementKind.TheVariants as element;
ghost use Rattle.rows.specs.Plan.{is_leg, is_teleported};

use crate::kinds::seconds_in;
use crate::open_plan::with_leg;
use crate::refusals::Named;
use crate::rows_read::RowsRead;
use csv::ByteRecord;
use events::{Mode, Names, Route};
use records::number;
use rows::Leg;
use std::alloc::{AllocError, Global};

/// The number of the name among three, which is put into the list.
fn numbered_item(
    alloc: Global,
    names: &mut Names,
    items: &[&[u8]],
    place: usize,
) -> Result<u32, AllocError>
    requires three { length items.now ≡ 3 }
    requires names { are_names (map (λ item. item.now) items.now) ≡ true }
    requires place { place < 3 }
    ensures number { IfOk result (λ n. number_of (item (map (λ item. item.now) items.now) place) names.new ≡ Some n) }
    ensures names { OnOk result (names.new ≡ with_name names.old (item (map (λ item. item.now) items.now) place)) }
{
    number(alloc, names, items[place])
}

/// The transit leg of this line and these stops, which are put into the lists.
#[tactic(auto, using(crate::proofs::Items::number_kept))]
fn transit_leg(
    alloc: Global,
    lines: &mut Names,
    stops: &mut Names,
    items: &[&[u8]],
) -> Result<Leg, AllocError>
    requires three { length items.now ≡ 3 }
    requires names { are_names (map (λ item. item.now) items.now) ≡ true }
    ensures lines { OnOk result (lines.new ≡ with_name lines.old (item (map (λ item. item.now) items.now) 0)) }
    ensures stops { OnOk result
        (stops.new ≡ with_name (with_name stops.old (item (map (λ item. item.now) items.now) 1))
        (item (map (λ item. item.now) items.now) 2)) }
    ensures leg { IfOk result
        (λ leg. leg ≡ Leg.Transit (number_in_table (item (map (λ item. item.now) items.now) 0) lines.new)
        (number_in_table (item (map (λ item. item.now) items.now) 1) stops.new)
        (number_in_table (item (map (λ item. item.now) items.now) 2) stops.new)) }
{
    let line = numbered_item(alloc, lines, items, 0)?;
    let access = numbered_item(alloc, stops, items, 1)?;
    let egress = numbered_item(alloc, stops, items, 2)?;
    Ok(Leg::Transit {
        line,
        access,
        egress,
    })
}

/// The leg by car over the links of the row.
#[tactic(auto, using(crate::proofs::Items::count_numbers), unfolding(crate::specs::Values::leg_by, crate::specs::Refusals::lacks_link))]
fn car_leg(route: Option<Vec<u32>>, row: &ByteRecord, links: &Names) -> Leg
    requires route { option_map (λ route. route.items) route ≡ numbers_of (items_of (fields_of row.now)) links.now }
    requires found { lacks_link links.now (element.Leg (Some Mode.Car)) (fields_of row.now) ≡ false }
    requires few { length (items_of (fields_of row.now)) ≤ MAX_ROUTE_LINKS }
    ensures leg { (lines stops : List (List ℕ)) → result ≡ leg_by lines stops links.now Mode.Car (fields_of row.now) }
    ensures sound { is_leg result ≡ true }
{
    match route {
        Some(rows) => Leg::Car {
            route: Route { rows },
        },
        None => unreachable!(),
    }
}

/// The leg of a mode that takes the seconds of the row.
fn teleported_leg(mode: Mode, row: &ByteRecord) -> Leg
    requires mode { is_teleported mode ≡ true }
    requires seconds { is_some (seconds_in (fields_of row.now)) ≡ true }
    ensures leg { IfSome (seconds_in (fields_of row.now)) (λ seconds. result ≡ Leg.Teleport mode seconds) }
    ensures sound { is_leg result ≡ true }
{
    match seconds_in(row) {
        Some(seconds) => Leg::Teleport { mode, seconds },
        None => unreachable!(),
    }
}

/// The leg of a mode that the row is, with its line and its stops among the names.
#[tactic(auto, unfolding(crate::specs::Values::leg_by, crate::specs::Refusals::lacks_element_name, crate::specs::Refusals::has_bad_time))]
fn numbered_leg(
    alloc: Global,
    lines: &mut Names,
    stops: &mut Names,
    mode: Mode,
    row: &ByteRecord,
    named: Named,
    links: &Names,
) -> Result<Leg, AllocError>
    requires items { map (λ item. item.now) named.items.items ≡ items_of (fields_of row.now) }
    requires route { is_car (element.Leg (Some mode)) ≡ true → option_map (λ route. route.items) named.route
        ≡ numbers_of (items_of (fields_of row.now)) links.now }
    requires names { lacks_element_name (element.Leg (Some mode)) (fields_of row.now) ≡ false }
    requires times { has_bad_time (element.Leg (Some mode)) (fields_of row.now) ≡ false }
    requires found { lacks_link links.now (element.Leg (Some mode)) (fields_of row.now) ≡ false }
    requires few { is_car (element.Leg (Some mode)) ≡ true → length (items_of (fields_of row.now)) ≤ MAX_ROUTE_LINKS }
    ensures lines { OnOk result (lines.new ≡ lines_with (is_transit (element.Leg (Some mode))) lines.old (items_of (fields_of row.now))) }
    ensures stops { OnOk result (stops.new ≡ stops_with (is_transit (element.Leg (Some mode))) stops.old (items_of (fields_of row.now))) }
    ensures leg { IfOk result (λ leg. leg ≡ leg_by lines.new stops.new links.now mode (fields_of row.now)) }
    ensures sound { IfOk result (λ leg. is_leg leg ≡ true) }
{
    let Named { items, route, .. } = named;
    match mode {
        Mode::Car => Ok(car_leg(route, row, links)),
        Mode::Pt => transit_leg(alloc, lines, stops, &items),
        Mode::Walk => Ok(teleported_leg(Mode::Walk, row)),
        Mode::Bike => Ok(teleported_leg(Mode::Bike, row)),
        Mode::Ride => Ok(teleported_leg(Mode::Ride, row)),
    }
}

/// One more row, which is a leg of this mode.
#[tactic(auto, unfolding(crate::specs::Progress::step_leg))]
pub fn step_leg(
    alloc: Global,
    read: RowsRead,
    mode: Mode,
    row: &ByteRecord,
    named: Named,
    links: &Names,
) -> Result<RowsRead, AllocError>
    requires items { map (λ item. item.now) named.items.items ≡ items_of (fields_of row.now) }
    requires route { is_car (element.Leg (Some mode)) ≡ true → option_map (λ route. route.items) named.route
        ≡ numbers_of (items_of (fields_of row.now)) links.now }
    requires able { LegAble links.now (length read.current.legs.items) mode (fields_of row.now) }
    requires ended { ends_well read.current.last ≡ true }
    ensures { IfOk result (λ r. progress_of r ≡ step_leg links.now (progress_of read) mode (fields_of row.now)) }
{
    let RowsRead {
        persons,
        kinds,
        mut lines,
        mut stops,
        plans,
        own,
        starts,
        current,
    } = read;
    let Some(last) = current.last else {
        unreachable!()
    };
    let leg = numbered_leg(alloc, &mut lines, &mut stops, mode, row, named, links)?;
    let current = with_leg(current, last, leg)?;
    Ok(RowsRead {
        persons,
        kinds,
        lines,
        stops,
        plans,
        own,
        starts,
        current,
    })
}
