//! When a person has something to do by himself.

ghost use Rattle.std.specs.Prelude.{◌≡◌, ◌+◌, ◌<◌, length, get_or, Some};
ghost use Rattle.rows.specs.PlanRows.{plan_rows, leg_in};
ghost use Rattle.rows.specs.declared.plan.Leg.TheVariants as leg;
ghost use Rattle.calendar.specs.Waking.{within};
ghost use Rattle.town.specs.Views.{setup};
ghost use Rattle.person_moves.specs.Legs.{nth_leg};
ghost use Rattle.part_persons.specs.Dues.{seconds_of, person_due, is_riding};

use calendar::within;
use rows::{Leg, Legs, Plan};
use town::{DayInput, chosen_plan};
use traffic::{Person, Place};

/// The seconds of a leg, where it is teleported.
fn seconds_of(leg: &Leg) -> Option<u32>
    ensures { result ≡ seconds_of leg.now }
{
    match leg {
        Leg::Car { .. } => None,
        Leg::Teleport { seconds, .. } => Some(*seconds),
        Leg::Transit { .. } => None,
    }
}

fn seconds_at(legs: &Legs, place: usize) -> Option<u32>
    ensures { result ≡ seconds_of (nth_leg legs.now place) }
{
    if place < legs.rows.len() {
        return seconds_of(&legs.rows[place]);
    }
    None
}

fn seconds_in(plan: &Plan, element: u32) -> Option<u32>
    ensures { result ≡ seconds_of (leg_in (plan_rows plan.now) element) }
{
    seconds_at(&plan.legs, element as usize / 2)
}

/// So many seconds after the start, where that is before the end.
fn landing_second(end: u32, start: u32, seconds: u32) -> Option<u32>
    ensures { result ≡ within end (Some (start + seconds)) }
{
    let second = u64::from(start) + u64::from(seconds);
    if second < u64::from(end) {
        return Some(second as u32);
    }
    None
}

/// The second of the day in which the activity or the teleported leg of a person ends.
pub(crate) fn person_due(day: &DayInput, person: u32, state: Person) -> Option<u32>
    requires { person < length day.now.chosen.now }
    ensures { result ≡ within day.now.town.now.settings.end_second (person_due (setup day.now) person state) }
{
    let end_second = day.town.settings.end_second;
    match state.place {
        Place::At { end } => within(end_second, end),
        Place::Teleporting { start } => match seconds_in(chosen_plan(day, person), state.element) {
            None => None,
            Some(seconds) => landing_second(end_second, start, seconds),
        },
        Place::Waiting { .. } => None,
        Place::Riding { .. } => None,
        Place::Aborted { .. } => None,
    }
}

/// Whether a person rides: then he has nothing to do by himself.
pub(crate) fn is_riding(place: Place) -> bool
    ensures { result ≡ is_riding place }
{
    matches!(place, Place::Riding { .. })
}
