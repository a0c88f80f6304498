//! What an event makes of the row of its person.

ghost use Rattle.std.specs.Prelude.{◌≡◌, ◌+◌, ◌/◌, ◌<◌, ◌^◌, OnOk, IfOk};
ghost use Rattle.town.specs.Views.{setup};
ghost use Rattle.traffic.specs.Setup.{act_at};
ghost use Rattle.traffic.specs.Moves.{ends_at, leave, arrive, start_act, ride, wait_at, lose, person_after, persons_by, persons_after};

use events::{More, VehicleId, Word};
use rows::act_in;
use std::alloc::AllocError;
use town::{DayInput, chosen_plan};
use traffic::{Occurrence, Person, Place};

/// The planned end of the activity at an element of a person's plan.
fn planned_end(day: &DayInput, person: u32, element: u32) -> Option<u32>
    ensures { result ≡ (act_at (setup day.now) person element).end }
{
    if (person as usize) < day.chosen.len() {
        return act_in(chosen_plan(day, person), element).end;
    }
    None
}

/// The next element of a plan. Each step of a plan tells an event that is kept in memory: where no
/// number counts them, there is no memory for them.
fn next_element(person: Person) -> Result<u32, AllocError>
    ensures { IfOk result (λ element. element ≡ person.element + 1) }
{
    let Some(element) = person.element.checked_add(1) else {
        return Err(AllocError);
    };
    Ok(element)
}

/// When an activity ends that is begun in this second.
fn ends_at(planned: Option<u32>, second: u32) -> Option<u32>
    requires { second < 2 ^ 31 }
    ensures { result ≡ ends_at planned second }
{
    match planned {
        None => None,
        Some(end) => Some(end.max(second + 1)),
    }
}

/// The leg of a person begins.
fn leave(second: u32, person: Person) -> Result<Person, AllocError>
    ensures { IfOk result (λ after. after ≡ leave second person) }
{
    let element = next_element(person)?;
    Ok(Person {
        element,
        place: Place::Teleporting { start: second },
    })
}

/// The leg of a person ends, and the next activity begins.
fn arrive(day: &DayInput, second: u32, number: u32, person: Person) -> Result<Person, AllocError>
    requires { second < 2 ^ 31 }
    ensures { IfOk result (λ after. after ≡ arrive (setup day.now) second number person) }
{
    let element = next_element(person)?;
    let planned = planned_end(day, number, element);
    Ok(Person {
        element,
        place: Place::At {
            end: ends_at(planned, second),
        },
    })
}

/// The next activity begins; a person who waits at a stop has none to begin.
fn start_act(day: &DayInput, second: u32, number: u32, person: Person) -> Result<Person, AllocError>
    requires { second < 2 ^ 31 }
    ensures { IfOk result (λ after. after ≡ start_act (setup day.now) second number person person.place) }
{
    match person.place {
        Place::Waiting { .. } => Ok(person),
        Place::At { .. } => arrive(day, second, number, person),
        Place::Teleporting { .. } => arrive(day, second, number, person),
        Place::Riding { .. } => arrive(day, second, number, person),
        Place::Aborted { .. } => arrive(day, second, number, person),
    }
}

/// The person is in this vehicle from now on.
fn ride(vehicle: Option<VehicleId>, person: Person) -> Person
    ensures { result ≡ ride vehicle person }
{
    match vehicle {
        None => person,
        Some(vehicle) => Person {
            element: person.element,
            place: Place::Riding { vehicle },
        },
    }
}

/// The person waits at this stop from now on.
fn wait_at(more: More, second: u32, person: Person) -> Person
    ensures { result ≡ wait_at more second person }
{
    match more {
        More::Stop(stop) => Person {
            element: person.element,
            place: Place::Waiting {
                stop,
                since: second,
            },
        },
        More::Nothing => person,
        More::Kind(_) => person,
        More::Mode(_) => person,
        More::Seconds(_) => person,
        More::Line(_) => person,
    }
}

/// The person is removed from this link.
fn lose(link: Option<u32>, person: Person) -> Person
    ensures { result ≡ lose link person }
{
    match link {
        None => person,
        Some(link) => Person {
            element: person.element,
            place: Place::Aborted { link },
        },
    }
}

/// The row of the person of this number after an event.
#[tactic(auto, unfolding(traffic::specs::Moves::person_after))]
fn person_after(
    day: &DayInput,
    second: u32,
    number: u32,
    said: &Occurrence,
    person: Person,
) -> Result<Person, AllocError>
    requires { second < 2 ^ 31 }
    ensures { IfOk result (λ after. after ≡ person_after (setup day.now) second number said.now person) }
{
    match said.word {
        Word::Departure => leave(second, person),
        Word::WaitingForPt => Ok(wait_at(said.more, second, person)),
        Word::PersonEntersVehicle => Ok(ride(said.vehicle, person)),
        Word::ActStart => start_act(day, second, number, person),
        Word::StuckAndAbort => Ok(lose(said.link, person)),
        Word::ActEnd => Ok(person),
        Word::Travelled => Ok(person),
        Word::Arrival => Ok(person),
        Word::VehicleEntersTraffic => Ok(person),
        Word::LeftLink => Ok(person),
        Word::EnteredLink => Ok(person),
        Word::VehicleLeavesTraffic => Ok(person),
        Word::PersonLeavesVehicle => Ok(person),
        Word::TransitDriverStarts => Ok(person),
        Word::VehicleArrivesAtFacility => Ok(person),
        Word::VehicleDepartsAtFacility => Ok(person),
        Word::VehicleAborts => Ok(person),
    }
}

/// Does an event to the row of its person.
fn step_by(
    day: &DayInput,
    second: u32,
    said: &Occurrence,
    persons: &mut [Person],
) -> Result<(), AllocError>
    requires { second < 2 ^ 31 }
    ensures { OnOk result (persons.new ≡ persons_by (setup day.now) second said.now said.now.person persons.old) }
{
    let Some(number) = said.person else {
        return Ok(());
    };
    let place = number as usize;
    if place < persons.len() {
        persons[place] = person_after(day, second, number, said, persons[place])?;
    }
    Ok(())
}

/// Does what is told in this second, one event after the other, to the rows of the persons.
///
/// # Errors
///
/// `AllocError`: no number counts the elements of a person's plan.
pub fn step_persons(
    day: &DayInput,
    second: u32,
    said: &[Occurrence],
    persons: &mut [Person],
) -> Result<(), AllocError>
    requires { second < 2 ^ 31 }
    ensures { OnOk result (persons.new ≡ persons_after (setup day.now) second said.now persons.old) }
{
    let mut rest = said;
    while let [event, later @ ..] = rest {
        step_by(day, second, event, persons)?;
        rest = later;
    }
    Ok(())
}
