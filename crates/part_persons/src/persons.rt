//! The persons of a day.

ghost use Rattle.std.specs.Prelude.{◌≡◌, ℕ, ◌<◌, length, IfOk};
ghost use Rattle.law_in_range.specs.{Rows.IsFitWorld, Setups.counts_in, Setups.HaveFittingPlans};
ghost use Rattle.partition.specs.Homes.{homes_of};
ghost use Rattle.parts.specs.Owners.{Owner};
ghost use Rattle.town.specs.Views.{setup};
ghost use Rattle.traffic.specs.Day.{world_start};
ghost use Rattle.part_persons.specs.{Dues.AreFollowedIn, Own.own_persons, Own.first_rows};

use crate::hearing::follow_residents;
use crate::homes::first_rows;
use calendar::Wakes;
use person_moves::{World, start_with};
use std::alloc::{AllocError, Global};
use town::DayInput;

/// The persons of a day, or those of one partition of it, and in which second each of them is next looked at.
#[derive(Drop)]
pub struct Persons {
    /// A world that has their rows, where nobody stands for a person who is not there, and the rows of vehicles that they or departures let
    /// in and that were not yet put on a link.
    pub world: World,
    pub wakes: Wakes,
}

/// In which second each person of a world is first looked at, whose home this partition is.
fn first_wakes(
    alloc: Global,
    day: &DayInput,
    homes: &[u32],
    partition: u32,
    world: &World,
) -> Result<Wakes, AllocError>
    requires names { length day.now.town.now.book.persons ≡ length day.now.chosen.now }
    requires plans { length world.now.persons ≡ length day.now.chosen.now }
    requires homes { length homes.now ≡ length day.now.chosen.now }
    requires rows { world.now.persons ≡ first_rows (setup day.now) homes.now partition }
    ensures followed { (t : ℕ) → IfOk result (λ wakes. AreFollowedIn day.now t world.now.persons wakes) }
    ensures wakes { IfOk result (λ wakes. length wakes ≡ length world.now.persons) }
{
    let mut wakes = Wakes::new(alloc, world.persons.len())?;
    follow_residents(day, homes, partition, &world.persons, &mut wakes)?;
    Ok(wakes)
}

impl Persons {
    /// The persons of a partition at the start of a day, each at the first activity of the chosen plan. They are those whose first activity
    /// is on a link of the partition: each begins the day in the partition that `homes` has at his number. No plan of anybody
    /// else is looked at.
    ///
    /// # Errors
    ///
    /// `AllocError`: there is no memory for them.
    pub fn new(
        alloc: Global,
        day: &DayInput,
        homes: &[u32],
        partition: u32,
    ) -> Result<Persons, AllocError>
        requires given { HaveFittingPlans day.now }
        requires homes { length homes.now ≡ length day.now.chosen.now }
        ensures world { (own : Owner) → homes.now ≡ homes_of (setup day.now) own
            → IfOk result (λ persons. persons.world ≡ record (world_start (setup day.now)) {
              persons = own_persons (setup day.now) own partition;
            }) }
        ensures fit { IfOk result (λ persons. IsFitWorld (counts_in day.now) persons.world) }
        ensures followed { (t : ℕ) → IfOk result (λ persons. AreFollowedIn day.now t persons.world.persons persons.wakes) }
        ensures wakes { IfOk result (λ persons. length persons.wakes ≡ length persons.world.persons) }
    {
        let rows = first_rows(alloc, day, homes, partition)?;
        let world = start_with(alloc, day, rows);
        let wakes = first_wakes(alloc, day, homes, partition, &world)?;
        Ok(Persons { world, wakes })
    }
}
