//! Who waits at the stops of a link.

ghost use Rattle.std.specs.Prelude.{◌≡◌, ◌+◌, ◌<◌, length, ◌++◌, OnOk, IfOk};
ghost use Rattle.std.specs.Option.{option_to_list};
ghost use Rattle.town.specs.Views.{setup};
ghost use Rattle.rows.specs.PlanRows.{plan_rows, act_in, leg_in};
ghost use Rattle.traffic.specs.{Persons.waits_on, Persons.waiter, Persons.waiters, Rows.person_of};

use person_moves::{World, link_of_stop, person_of, waiter_in};
use rows::Plan;
use std::alloc::{AllocError, Global};
use town::{DayInput, chosen_plan};
use traffic::{Person, Place, Waiter};

/// The person, where he waits at a stop of the link.
fn waiter(day: &DayInput, link: u32, i: u32, plan: &Plan, person: Person) -> Option<Waiter>
    ensures { option_to_list result
        ≡ waits_on (setup day.now) link i (leg_in (plan_rows plan.now) person.element)
        (act_in (plan_rows plan.now) (person.element + 2)) person.place }
{
    let Place::Waiting { stop, since } = person.place else {
        return None;
    };
    if link_of_stop(day, stop) != link {
        return None;
    }
    waiter_in(plan, i, person.element, stop, since)
}

/// The person of this number, where he waits at a stop of the link.
fn waiter_at(day: &DayInput, link: u32, i: u32, world: &World) -> Option<Waiter>
    requires there { i < length day.now.chosen.now }
    requires persons { length world.now.persons ≡ length day.now.chosen.now }
    ensures { option_to_list result ≡ waiter (setup day.now) link i (person_of i world.now) }
{
    let plan = chosen_plan(day, i);
    let person = person_of(world, i);
    waiter(day, link, i, plan, person)
}

/// Appends the person of a number, where he waits there. Persons are kept in memory: where no number counts them,
/// there is no memory for them.
fn push_waiter(
    day: &DayInput,
    link: u32,
    place: usize,
    world: &World,
    all: &mut Vec<Waiter>,
) -> Result<(), AllocError>
    requires there { place < length day.now.chosen.now }
    requires persons { length world.now.persons ≡ length day.now.chosen.now }
    ensures { OnOk result (all.new.items ≡ all.old.items ++ waiter (setup day.now) link place (person_of place world.now)) }
{
    let Ok(i) = u32::try_from(place) else {
        return Err(AllocError);
    };
    let one = waiter_at(day, link, i, world);
    if let Some(one) = one {
        all.push(one)?;
    }
    Ok(())
}

/// How many persons there are.
fn count_persons(world: &World) -> usize
    ensures { result ≡ length world.now.persons }
{
    world.persons.len()
}

/// Those who wait at the stops of a link, by their numbers.
pub(crate) fn waiters(
    alloc: Global,
    day: &DayInput,
    link: u32,
    world: &World,
) -> Result<Vec<Waiter>, AllocError>
    requires { length world.now.persons ≡ length day.now.chosen.now }
    ensures { IfOk result (λ all. all.items ≡ waiters (setup day.now) link world.now) }
{
    let mut all = Vec::new(alloc);
    for i in 0..count_persons(world) {
        push_waiter(day, link, i, world, &mut all)?;
    }
    Ok(all)
}
