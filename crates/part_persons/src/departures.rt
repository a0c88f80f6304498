//! The departures of a partition by their seconds.

ghost use Rattle.std.specs.Prelude.{◌≡◌, ℕ, ◌<◌, ◌≤◌, ◌++◌, [], ◌∷◌, ◌&&◌, ◌==◌, if◌then◌else◌};
ghost use Rattle.std.specs.Prelude.{get_or, length, OnOk, IfOk};
ghost use Rattle.limits.specs.declared.TheConstants.{MAX_DEPARTURES};
ghost use Rattle.calendar.specs.Due.{due_at};
ghost use Rattle.partition.specs.Owned.{owner_in};
ghost use Rattle.town.specs.{Setups.route_at, Views.setup};
ghost use Rattle.part_persons.specs.{Own.own_departs_in, Phases.numbers_where, Starts.is_start, Starts.is_due};

use calendar::Calendar;
use partition::{Owner, owner_of_link};
use rows::{DepartureList, DepartureRow, RouteList, RouteRow};
use std::alloc::{AllocError, Global};
use town::DayInput;

/// The first link of a route.
fn first_link(route: &RouteRow) -> u32
    ensures { result ≡ get_or route.now.links 0 0 }
{
    if route.links.rows.is_empty() {
        return 0;
    }
    route.links.rows[0]
}

/// The first link of the route of this number.
fn first_link_of(routes: &RouteList, number: u32) -> u32
    ensures { result ≡ get_or (route_at routes.now number).links 0 0 }
{
    let place = number as usize;
    if place < routes.rows.len() {
        return first_link(&routes.rows[place]);
    }
    0
}

/// Whether a departure starts on a link of this partition.
fn starts_in(day: &DayInput, owner: &Owner, partition: u32, row: DepartureRow) -> bool
    ensures { result ≡ is_start day.now (owner_in owner.now.of_node) partition row }
{
    let link = first_link_of(&day.town.routes.rows, row.route);
    owner_of_link(day, owner, link) == partition
}

/// A departure starts in this second, if that is before the end.
fn add_departure(
    calendar: &mut Calendar,
    end: u32,
    second: u32,
    number: u32,
) -> Result<(), AllocError>
    ensures { OnOk result ((u : ℕ) → u < end → due_at u calendar.new
        ≡ (if u == second then due_at u calendar.old ++ number ∷ [] else due_at u calendar.old)) }
{
    if second < end {
        calendar.add(second, number)?;
    }
    Ok(())
}

/// A departure of this partition starts in its second, if that is before the end.
fn add_if_own(
    day: &DayInput,
    owner: &Owner,
    partition: u32,
    number: u32,
    row: DepartureRow,
    calendar: &mut Calendar,
) -> Result<(), AllocError>
    ensures { OnOk result ((u : ℕ) → u < day.now.town.now.settings.end_second → due_at u calendar.new
        ≡ (if is_due day.now (owner_in owner.now.of_node) partition u row then due_at u calendar.old ++ number ∷ []
        else due_at u calendar.old)) }
{
    if !starts_in(day, owner, partition, row) {
        return Ok(());
    }
    add_departure(calendar, day.town.settings.end_second, row.second, number)
}

/// The numbers of those of these departures that start in this partition, by their seconds, where those are before the end.
fn by_second(
    alloc: Global,
    day: &DayInput,
    owner: &Owner,
    partition: u32,
    departures: &[DepartureRow],
) -> Result<Calendar, AllocError>
    requires { length departures.now ≤ MAX_DEPARTURES }
    ensures { IfOk result (λ calendar. (u : ℕ) → u < day.now.town.now.settings.end_second
        → due_at u calendar ≡ numbers_where (is_due day.now (owner_in owner.now.of_node) partition u) 0 departures.now) }
{
    let mut calendar = Calendar::new(alloc);
    for (number, row) in departures.iter().enumerate() {
        add_if_own(day, owner, partition, number as u32, *row, &mut calendar)?;
    }
    Ok(calendar)
}

/// The same of a list of them.
fn list_by_second(
    alloc: Global,
    day: &DayInput,
    owner: &Owner,
    partition: u32,
    departures: &DepartureList,
) -> Result<Calendar, AllocError>
    requires { length departures.now ≤ MAX_DEPARTURES }
    ensures { IfOk result (λ calendar. (u : ℕ) → u < day.now.town.now.settings.end_second
        → due_at u calendar ≡ numbers_where (is_due day.now (owner_in owner.now.of_node) partition u) 0 departures.now) }
{
    let calendar = by_second(alloc, day, owner, partition, &departures.rows)?;
    Ok(calendar)
}

/// The departures of each second of a day that start on a link of a partition, by number.
///
/// # Errors
///
/// `AllocError`: there is no memory for them.
pub fn departures_by_second(
    alloc: Global,
    day: &DayInput,
    owner: &Owner,
    partition: u32,
) -> Result<Calendar, AllocError>
    ensures { IfOk result (λ calendar. (u : ℕ) → u < day.now.town.now.settings.end_second
        → due_at u calendar ≡ own_departs_in (setup day.now) (owner_in owner.now.of_node) partition u) }
{
    let calendar = list_by_second(alloc, day, owner, partition, &day.town.departures.rows)?;
    Ok(calendar)
}
