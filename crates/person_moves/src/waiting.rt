//! Who waits at a stop.

ghost use Rattle.std.specs.{Option.option_to_list, Prelude.◌≡◌, Prelude.◌+◌};
ghost use Rattle.rows.specs.PlanRows.{plan_rows, leg_in, act_in};
ghost use Rattle.traffic.specs.Persons.{waits};
ghost use Rattle.person_moves.specs.{Legs.nth_leg, Waiting.waiter_on};

use rows::{Leg, Legs, Plan, act_after};
use traffic::Waiter;

/// A person on this leg, with an activity of this kind after it, who waits at this stop since this second.
fn waiter_on(number: u32, leg: &Leg, kind: u32, stop: u32, since: u32) -> Option<Waiter>
    ensures { result ≡ waiter_on number leg.now kind stop since }
{
    match leg {
        Leg::Car { .. } => None,
        Leg::Teleport { .. } => None,
        Leg::Transit { line, egress, .. } => Some(Waiter {
            person: number,
            stop,
            line: *line,
            egress: *egress,
            kind,
            since,
        }),
    }
}

/// So on the leg at this place.
fn waiter_at(
    legs: &Legs,
    place: usize,
    number: u32,
    kind: u32,
    stop: u32,
    since: u32,
) -> Option<Waiter>
    ensures { result ≡ waiter_on number (nth_leg legs.now place) kind stop since }
{
    if place < legs.rows.len() {
        return waiter_on(number, &legs.rows[place], kind, stop, since);
    }
    None
}

/// A person on the leg of this element of his plan, who waits at this stop since this second, where the leg is by transit.
pub fn waiter_in(plan: &Plan, number: u32, element: u32, stop: u32, since: u32) -> Option<Waiter>
    ensures value { result
        ≡ waiter_on number (leg_in (plan_rows plan.now) element) (act_in (plan_rows plan.now) (element + 2)).kind stop since }
    ensures waits { option_to_list result
        ≡ waits number (leg_in (plan_rows plan.now) element) (act_in (plan_rows plan.now) (element + 2)) stop since }
{
    let kind = act_after(plan, element).kind;
    waiter_at(&plan.legs, element as usize / 2, number, kind, stop, since)
}
