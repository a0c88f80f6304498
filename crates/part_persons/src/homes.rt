//! Who begins a day in one partition of its network.

ghost use Rattle.std.specs.Prelude.{◌≡◌, ◌<◌, ◌==◌, length, get_or, replicate, IfOk};
ghost use Rattle.town.specs.Views.{setup};
ghost use Rattle.traffic.specs.{Day.at_home, Rows.nobody, Setup.person_plan};
ghost use Rattle.part_persons.specs.Own.{first_rows};

use person_moves::at_home;
use std::alloc::{AllocError, Global};
use town::{DayInput, chosen_plan};
use traffic::{Person, Place};

/// The row that stands for a person who is not there.
pub(crate) fn nobody() -> Person
    ensures { result ≡ nobody }
{
    Person {
        element: 0,
        place: Place::Aborted { link: 0 },
    }
}

/// The row with which a person begins the day, at the first activity of the chosen plan.
fn home_row(day: &DayInput, person: u32) -> Person
    requires { person < length day.now.chosen.now }
    ensures { result ≡ at_home (person_plan (setup day.now) person) }
{
    at_home(chosen_plan(day, person))
}

/// Whether this partition is the home of a person.
pub(crate) fn is_home(homes: &[u32], partition: u32, person: u32) -> bool
    requires { person < length homes.now }
    ensures { result ≡ (get_or homes.now person 0 == partition) }
{
    homes[person as usize] == partition
}

/// So many rows, in which nobody stands.
fn empty_rows(alloc: Global, count: usize) -> Result<Vec<Person>, AllocError>
    ensures { IfOk result (λ rows. rows.items ≡ replicate count nobody) }
{
    let mut rows = Vec::new(alloc);
    rows.resize(count, nobody())?;
    Ok(rows)
}

/// The rows with which all persons begin the day in this partition, by the homes of all. Only the plans of those are looked at whose home
/// it is.
pub(crate) fn first_rows(
    alloc: Global,
    day: &DayInput,
    homes: &[u32],
    partition: u32,
) -> Result<Vec<Person>, AllocError>
    requires names { length day.now.town.now.book.persons ≡ length day.now.chosen.now }
    requires homes { length homes.now ≡ length day.now.chosen.now }
    ensures { IfOk result (λ rows. rows.items ≡ first_rows (setup day.now) homes.now partition) }
{
    let mut rows = empty_rows(alloc, homes.len())?;
    for person in 0..day.town.book.persons.len() {
        if is_home(homes, partition, person) {
            rows[person as usize] = home_row(day, person);
        }
    }
    Ok(rows)
}
