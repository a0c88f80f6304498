//! The phases in which persons land, persons leave, and departures start.

ghost use Rattle.std.specs.Prelude.{◌≡◌, ℕ, ◌+◌, ◌<◌, ◌++◌, [], ◌∷◌, false, length, OnOk, IfOk};
ghost use Rattle.limits.specs.declared.TheConstants.{LAST_SECOND};
ghost use Rattle.events.specs.declared.event.Phase.TheVariants as phase;
ghost use Rattle.law_in_range.specs.{Rows.IsFitWorld, Setups.counts_in, Setups.HaveFittingPlans};
ghost use Rattle.town.specs.Views.{setup};
ghost use Rattle.traffic.specs.Day.{turns_of, departure_turns, count_of, turns, after, events_of, events_in, through, told_in};
ghost use Rattle.traffic.specs.{Moves.run, Rows.person_of};
ghost use Rattle.calendar.specs.{Due.due_at, Due.HasNone, Due.AreIn, Waking.woken, Waking.is_woken};
ghost use Rattle.part_persons.specs.{Dues.AreFollowedIn, Phases.phase_of};

use crate::persons::Persons;
use crate::turns::PhaseTurn;
use calendar::Calendar;
use events::{Event, Phase};
use person_moves::{World, departure_moves, landing_moves, leaving_moves, person_of};
use std::alloc::{AllocError, Global};
use town::DayInput;
use traffic::Move;

/// A phase before the nodes and links have theirs.
#[derive(Clone, Copy, Debug, PartialEq, Eq)]
pub enum EarlyPhase {
    /// Teleported legs end.
    Land,
    /// Activities end.
    Leave,
    /// Departures start.
    Start,
}

impl EarlyPhase {
    /// Its place among the phases of a second.
    pub fn phase(self) -> Phase
        ensures { result ≡ phase_of self }
    {
        match self {
            EarlyPhase::Land => Phase::A,
            EarlyPhase::Leave => Phase::B1,
            EarlyPhase::Start => Phase::B2,
        }
    }
}

/// The moves of a person or a departure in its turn.
#[tactic(auto, unfolding(traffic::specs::Day::turns_of))]
fn early_moves(
    alloc: Global,
    day: &DayInput,
    second: u32,
    early: EarlyPhase,
    number: u32,
    world: &World,
) -> Result<Vec<Move>, AllocError>
    requires second_in { second < LAST_SECOND }
    requires given { HaveFittingPlans day.now }
    requires fit { IsFitWorld (counts_in day.now) world.now }
    requires there { number < count_of (setup day.now) (phase_of early) }
    ensures { IfOk result (λ moves. moves.items ≡ turns_of (setup day.now) second (phase_of early) number world.now) }
{
    match early {
        EarlyPhase::Land => landing_moves(alloc, day, second, number, person_of(world, number)),
        EarlyPhase::Leave => leaving_moves(alloc, day, second, number, person_of(world, number)),
        EarlyPhase::Start => departure_moves(alloc, day, second, number),
    }
}

impl Persons {
    /// The turn of a person or a departure.
    fn do_early(
        &mut self,
        alloc: Global,
        day: &DayInput,
        second: u32,
        early: EarlyPhase,
        number: u32,
        events: &mut Vec<Event>,
    ) -> Result<(), AllocError>
        requires second_in { second < LAST_SECOND }
        requires given { HaveFittingPlans day.now }
        requires fit { IsFitWorld (counts_in day.now) self.old.world }
        requires wakes { length self.old.wakes ≡ length self.old.world.persons }
        requires there { number < count_of (setup day.now) (phase_of early) }
        ensures world { OnOk result (self.new.world
            ≡ run (setup day.now) second (turns_of (setup day.now) second (phase_of early) number self.old.world) self.old.world) }
        ensures events { OnOk result (events.new.items ≡ events.old.items ++ events_of second (phase_of early)
            (record { number = number; moves = turns_of (setup day.now) second (phase_of early) number self.old.world })) }
        ensures fit { OnOk result (IsFitWorld (counts_in day.now) self.new.world) }
        ensures followed { (t : ℕ) → AreFollowedIn day.now t self.old.world.persons self.old.wakes
            → OnOk result (AreFollowedIn day.now t self.new.world.persons self.new.wakes) }
        ensures wakes { OnOk result (length self.new.wakes ≡ length self.new.world.persons) }
    {
        let moves = early_moves(alloc, day, second, early, number, &self.world)?;
        let phase = early.phase();
        let turn = PhaseTurn {
            second,
            phase,
            number,
        };
        self.do_turn(alloc, day, turn, moves, events)?;
        Ok(())
    }

    /// The turns of these persons or departures, one after the other.
    fn do_turns(
        &mut self,
        alloc: Global,
        day: &DayInput,
        second: u32,
        early: EarlyPhase,
        numbers: &[u32],
        events: &mut Vec<Event>,
    ) -> Result<(), AllocError>
        requires second_in { second < LAST_SECOND }
        requires given { HaveFittingPlans day.now }
        requires fit { IsFitWorld (counts_in day.now) self.old.world }
        requires wakes { length self.old.wakes ≡ length self.old.world.persons }
        requires there { AreIn (count_of (setup day.now) (phase_of early)) numbers.now }
        ensures world { OnOk result (self.new.world ≡ after (setup day.now) second
            (turns (setup day.now) second (turns_of (setup day.now) second (phase_of early)) numbers.now self.old.world) self.old.world) }
        ensures events { OnOk result (events.new.items ≡ events.old.items ++ events_in second (phase_of early)
            (turns (setup day.now) second (turns_of (setup day.now) second (phase_of early)) numbers.now self.old.world)) }
        ensures fit { OnOk result (IsFitWorld (counts_in day.now) self.new.world) }
        ensures followed { (t : ℕ) → AreFollowedIn day.now t self.old.world.persons self.old.wakes
            → OnOk result (AreFollowedIn day.now t self.new.world.persons self.new.wakes) }
        ensures wakes { OnOk result (length self.new.wakes ≡ length self.new.world.persons) }
    {
        for number in numbers {
            self.do_early(alloc, day, second, early, *number, events)?;
        }
        Ok(())
    }

    /// The first two phases of a second: teleported legs end, and then activities. Only those are looked at who have something to do; their
    /// numbers are told, ascending.
    ///
    /// # Errors
    ///
    /// `AllocError`: there is no memory for the numbers, a row or an event. The persons are then of no use.
    pub fn land_and_leave(
        &mut self,
        alloc: Global,
        day: &DayInput,
        second: u32,
        events: &mut Vec<Event>,
    ) -> Result<Vec<u32>, AllocError>
        requires second_in { second < LAST_SECOND }
        requires in_day { second < day.now.town.now.settings.end_second }
        requires given { HaveFittingPlans day.now }
        requires fit { IsFitWorld (counts_in day.now) self.old.world }
        requires wakes { length self.old.wakes ≡ length self.old.world.persons }
        requires followed { AreFollowedIn day.now second self.old.world.persons self.old.wakes }
        ensures due { IfOk result (λ due. due.items ≡ woken second self.old.wakes) }
        ensures world { OnOk result (self.new.world ≡ through (setup day.now) second (phase.A ∷ phase.B1 ∷ []) self.old.world) }
        ensures others { OnOk result ((i : ℕ) → is_woken second self.old.wakes i ≡ false
            → person_of i self.new.world ≡ person_of i self.old.world) }
        ensures events { OnOk result (events.new.items
            ≡ events.old.items ++ told_in (setup day.now) second (phase.A ∷ phase.B1 ∷ []) self.old.world) }
        ensures fit { OnOk result (IsFitWorld (counts_in day.now) self.new.world) }
        ensures followed { OnOk result (AreFollowedIn day.now (second + 1) self.new.world.persons self.new.wakes) }
        ensures wakes { OnOk result (length self.new.wakes ≡ length self.new.world.persons) }
    {
        let due = self.wakes.take(second)?;
        self.do_turns(alloc, day, second, EarlyPhase::Land, &due, events)?;
        self.do_turns(alloc, day, second, EarlyPhase::Leave, &due, events)?;
        Ok(due)
    }

    /// The phase in which departures start: those that are due in this second, all of the day's or those of a part, in their order.
    ///
    /// # Errors
    ///
    /// `AllocError`: there is no memory for the departures, a vehicle or an event. The persons and the departures are then of no use.
    pub fn start_departures(
        &mut self,
        alloc: Global,
        day: &DayInput,
        second: u32,
        departures: &mut Calendar,
        events: &mut Vec<Event>,
    ) -> Result<(), AllocError>
        requires second_in { second < LAST_SECOND }
        requires given { HaveFittingPlans day.now }
        requires fit { IsFitWorld (counts_in day.now) self.old.world }
        requires wakes { length self.old.wakes ≡ length self.old.world.persons }
        requires there { AreIn (length (setup day.now).departures) (due_at second departures.old) }
        ensures world { OnOk result (self.new.world ≡ after (setup day.now) second
            (turns (setup day.now) second (departure_turns (setup day.now) second) (due_at second departures.old) self.old.world)
            self.old.world) }
        ensures events { OnOk result (events.new.items ≡ events.old.items ++ events_in second phase.B2
            (turns (setup day.now) second (departure_turns (setup day.now) second) (due_at second departures.old) self.old.world)) }
        ensures fit { OnOk result (IsFitWorld (counts_in day.now) self.new.world) }
        ensures followed { (t : ℕ) → AreFollowedIn day.now t self.old.world.persons self.old.wakes
            → OnOk result (AreFollowedIn day.now t self.new.world.persons self.new.wakes) }
        ensures wakes { OnOk result (length self.new.wakes ≡ length self.new.world.persons) }
        ensures rest { OnOk result (HasNone second departures.old departures.new) }
    {
        let due = departures.take(second)?;
        self.do_turns(alloc, day, second, EarlyPhase::Start, &due, events)?;
        Ok(())
    }
}
