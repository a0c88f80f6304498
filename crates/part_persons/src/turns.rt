//! The turns of a phase as far as persons are concerned.

ghost use Rattle.std.specs.{List.flat_map, Prelude.◌≡◌, Prelude.ℕ, Prelude.◌<◌, Prelude.◌++◌, Prelude.length, Prelude.OnOk};
ghost use Rattle.limits.specs.declared.TheConstants.{LAST_SECOND};
ghost use Rattle.events.specs.Keys.{phase_code};
ghost use Rattle.town.specs.Views.{setup};
ghost use Rattle.traffic.specs.{Day.keyed, Moves.told, Moves.run, Moves.persons_after};
ghost use Rattle.part_persons.specs.Dues.{AreFollowedIn, followed_in};

use crate::hearing::follow_all;
use crate::persons::Persons;
use calendar::Wakes;
use events::{Event, Phase};
use person_moves::{World, do_moves, push_keyed, step_persons};
use std::alloc::{AllocError, Global};
use town::DayInput;
use traffic::{Move, Occurrence};

/// The turn of a number in a phase of a second.
#[derive(Clone, Copy, Debug, PartialEq, Eq)]
pub struct PhaseTurn {
    pub second: u32,
    pub phase: Phase,
    pub number: u32,
}

/// Looks again at all in a world who are told of when it is their time.
fn follow_told(
    day: &DayInput,
    said: &[Occurrence],
    world: &World,
    wakes: &mut Wakes,
) -> Result<(), AllocError>
    requires plans { length world.now.persons ≡ length day.now.chosen.now }
    requires wakes { length wakes.old ≡ length world.now.persons }
    ensures { OnOk result (wakes.new ≡ followed_in day.now world.now.persons said.now wakes.old) }
{
    follow_all(day, &world.persons, said, wakes)?;
    Ok(())
}

/// Does to the persons of a world what was told in this second.
fn step_in(
    day: &DayInput,
    second: u32,
    said: &[Occurrence],
    world: &mut World,
) -> Result<(), AllocError>
    requires { second < LAST_SECOND }
    ensures { OnOk result (world.new ≡ record world.old {
      persons = persons_after (setup day.now) second said.now world.old.persons;
    }) }
{
    step_persons(day, second, said, &mut world.persons)?;
    Ok(())
}

impl Persons {
    /// Does the moves of a turn to the persons, appends what they tell with its keys, and looks again at all who are told of when it is
    /// their time. Rows of vehicles that enter stand in the world afterwards.
    ///
    /// # Errors
    ///
    /// `AllocError`: there is no memory for a row or an event. The persons are then of no use.
    pub fn do_turn(
        &mut self,
        alloc: Global,
        day: &DayInput,
        turn: PhaseTurn,
        moves: Vec<Move>,
        events: &mut Vec<Event>,
    ) -> Result<(), AllocError>
        requires second_in { turn.second < LAST_SECOND }
        requires plans { length self.old.world.persons ≡ length day.now.chosen.now }
        requires wakes { length self.old.wakes ≡ length self.old.world.persons }
        ensures world { OnOk result (self.new.world ≡ run (setup day.now) turn.second moves.items self.old.world) }
        ensures events { OnOk result (events.new.items ≡ events.old.items
            ++ keyed turn.second (phase_code turn.phase) turn.number 0 (flat_map told moves.items)) }
        ensures followed { (t : ℕ) → AreFollowedIn day.now t self.old.world.persons self.old.wakes
            → OnOk result (AreFollowedIn day.now t self.new.world.persons self.new.wakes) }
        ensures wakes { OnOk result (length self.new.wakes ≡ length self.new.world.persons) }
    {
        let mut said = Vec::new(alloc);
        do_moves(alloc, day, turn.second, moves, &mut self.world, &mut said)?;
        follow_told(day, &said, &self.world, &mut self.wakes)?;
        push_keyed(turn.second, turn.phase, turn.number, &said, events)?;
        Ok(())
    }

    /// Does to the persons what was told in this second by the turns of others, as nodes and links, and looks again at all who are told of
    /// when it is their time. No vehicle is moved.
    ///
    /// # Errors
    ///
    /// `AllocError`: there is no memory for the second of a person, or no number counts the elements of a plan. The persons are then of no
    /// use.
    pub fn hear(
        &mut self,
        day: &DayInput,
        second: u32,
        said: &[Occurrence],
    ) -> Result<(), AllocError>
        requires second_in { second < LAST_SECOND }
        requires plans { length self.old.world.persons ≡ length day.now.chosen.now }
        requires wakes { length self.old.wakes ≡ length self.old.world.persons }
        ensures world { OnOk result (self.new.world ≡ record self.old.world {
          persons = persons_after (setup day.now) second said.now self.old.world.persons;
        }) }
        ensures followed { (t : ℕ) → AreFollowedIn day.now t self.old.world.persons self.old.wakes
            → OnOk result (AreFollowedIn day.now t self.new.world.persons self.new.wakes) }
        ensures wakes { OnOk result (length self.new.wakes ≡ length self.new.world.persons) }
    {
        step_in(day, second, said, &mut self.world)?;
        follow_told(day, said, &self.world, &mut self.wakes)?;
        Ok(())
    }
}
