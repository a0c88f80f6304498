//! Who is told of is looked at again when it is his time.

ghost use Rattle.std.specs.Prelude.{◌≡◌, ℕ, ◌<◌, ◌==◌, false, length, get_or, OnOk};
ghost use Rattle.town.specs.Views.{setup};
ghost use Rattle.traffic.specs.Rows.{nobody};
ghost use Rattle.part_persons.specs.Dues.{followed, followed_in, AreFollowedIn};

use crate::dues::person_due;
use crate::homes::is_home;
use calendar::Wakes;
use std::alloc::AllocError;
use town::DayInput;
use traffic::{Occurrence, Person};

/// A person is looked at when his activity or his teleported leg ends, if it does in the day.
pub(crate) fn follow(
    day: &DayInput,
    persons: &[Person],
    person: Option<u32>,
    wakes: &mut Wakes,
) -> Result<(), AllocError>
    requires plans { length persons.now ≡ length day.now.chosen.now }
    requires wakes { length wakes.old ≡ length persons.now }
    ensures { OnOk result (wakes.new ≡ followed (setup day.now) day.now.town.now.settings.end_second persons.now person wakes.old) }
{
    let Some(number) = person else {
        return Ok(());
    };
    let place = number as usize;
    if place >= persons.len() {
        return Ok(());
    }
    let due = person_due(day, number, persons[place]);
    wakes.set(number, due)?;
    Ok(())
}

/// So are all who are told of.
#[tactic(auto, unfolding(crate::specs::Dues::followed_all), using(crate::proofs::Following::followed_length))]
pub(crate) fn follow_all(
    day: &DayInput,
    persons: &[Person],
    said: &[Occurrence],
    wakes: &mut Wakes,
) -> Result<(), AllocError>
    requires plans { length persons.now ≡ length day.now.chosen.now }
    requires wakes { length wakes.old ≡ length persons.now }
    ensures { OnOk result (wakes.new ≡ followed_in day.now persons.now said.now wakes.old) }
{
    let mut rest = said;
    while let [event, later @ ..] = rest {
        follow(day, persons, event.person, wakes)?;
        rest = later;
    }
    Ok(())
}

/// So is everybody whose home this partition is; nobody stands for the others.
pub(crate) fn follow_residents(
    day: &DayInput,
    homes: &[u32],
    partition: u32,
    persons: &[Person],
    wakes: &mut Wakes,
) -> Result<(), AllocError>
    requires names { length day.now.town.now.book.persons ≡ length day.now.chosen.now }
    requires plans { length persons.now ≡ length day.now.chosen.now }
    requires homes { length homes.now ≡ length persons.now }
    requires wakes { length wakes.old ≡ length persons.now }
    requires others { (i : ℕ) → i < length persons.now → (get_or homes.now i 0 == partition) ≡ false
        → get_or persons.now i nobody ≡ nobody }
    ensures followed { (t : ℕ) → OnOk result (AreFollowedIn day.now t persons.now wakes.new) }
    ensures wakes { OnOk result (length wakes.new ≡ length wakes.old) }
{
    for person in 0..day.town.book.persons.len() {
        if is_home(homes, partition, person) {
            follow(day, persons, Some(person), wakes)?;
        }
    }
    Ok(())
}
