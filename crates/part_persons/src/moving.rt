//! Persons come to a part from another one, and go to another one.

ghost use Rattle.std.specs.Prelude.{◌≡◌, ◌<◌, ℕ, Some, length, set, OnOk};
ghost use Rattle.town.specs.Views.{setup};
ghost use Rattle.traffic.specs.{Rows.nobody, Rows.person_of, Setup.Setup};
ghost use Rattle.part_persons.specs.Dues.{AreFollowed, AreFollowedIn, followed};

use crate::dues::is_riding;
use crate::hearing::follow;
use crate::homes::nobody;
use crate::persons::Persons;
use calendar::Wakes;
use person_moves::{World, person_of};
use std::alloc::AllocError;
use town::DayInput;
use traffic::Person;

/// The person of this number has this row from now on.
fn put_row(persons: &mut [Person], person: u32, state: Person)
    requires { person < length persons.old }
    ensures { persons.new ≡ set persons.old person state }
{
    persons[person as usize] = state;
}

/// The same in a world.
fn put_person(world: &mut World, person: u32, state: Person)
    requires { person < length world.old.persons }
    ensures { world.new ≡ record world.old { persons = set world.old.persons person state } }
{
    put_row(&mut world.persons, person, state);
}

/// Nobody stands for the person of this number in a world from now on.
fn take_out(world: &mut World, person: u32)
    requires { person < length world.old.persons }
    ensures { world.new ≡ record world.old { persons = set world.old.persons person nobody } }
{
    put_row(&mut world.persons, person, nobody());
}

/// A person of a world is looked at when it is his time.
fn follow_in(
    day: &DayInput,
    person: u32,
    world: &World,
    wakes: &mut Wakes,
) -> Result<(), AllocError>
    requires plans { length world.now.persons ≡ length day.now.chosen.now }
    requires wakes { length wakes.old ≡ length world.now.persons }
    ensures { OnOk result (wakes.new
        ≡ followed (setup day.now) day.now.town.now.settings.end_second world.now.persons (Some person) wakes.old) }
{
    follow(day, &world.persons, Some(person), wakes)
}

impl Persons {
    /// A person comes to the part with this row, and is looked at when it is his time. Who rides has none: a second that he had here stays.
    ///
    /// # Errors
    ///
    /// `AllocError`: there is no memory for his second. The persons are then of no use.
    pub fn take_in(&mut self, day: &DayInput, person: u32, state: Person) -> Result<(), AllocError>
        requires plans { length self.old.world.persons ≡ length day.now.chosen.now }
        requires wakes { length self.old.wakes ≡ length self.old.world.persons }
        requires there { person < length self.old.world.persons }
        ensures world { OnOk result (self.new.world
            ≡ record self.old.world { persons = set self.old.world.persons person state }) }
        ensures followed { (t : ℕ) → AreFollowedIn day.now t self.old.world.persons self.old.wakes
            → OnOk result (AreFollowedIn day.now t self.new.world.persons self.new.wakes) }
        ensures wakes { OnOk result (length self.new.wakes ≡ length self.new.world.persons) }
    {
        put_person(&mut self.world, person, state);
        if is_riding(state.place) {
            return Ok(());
        }
        follow_in(day, person, &self.world, &mut self.wakes)?;
        Ok(())
    }

    /// A person goes to another part; answers the row that he had. Nobody stands for him from then on, who has nothing to do by himself.
    pub fn give_out(&mut self, person: u32) -> Person
        requires { person < length self.old.world.persons }
        ensures person { result ≡ person_of person self.old.world }
        ensures world { self.new.world ≡ record self.old.world { persons = set self.old.world.persons person nobody } }
        ensures followed { (S : Setup) (end t : ℕ) → AreFollowed S end t self.old.world.persons self.old.wakes
            → AreFollowed S end t self.new.world.persons self.new.wakes }
        ensures wakes { self.new.wakes ≡ self.old.wakes }
    {
        let state = person_of(&self.world, person);
        take_out(&mut self.world, person);
        state
    }
}
