//! The persons of a part hear what the turns of nodes and links tell.

ghost use Rattle.std.specs.Prelude.{◌≡◌, ◌<◌, ℕ, [], length, OnOk};
ghost use Rattle.limits.specs.declared.TheConstants.{LAST_SECOND};
ghost use Rattle.town.specs.Views.{setup};
ghost use Rattle.traffic.specs.Moves.{persons_after};
ghost use Rattle.part_persons.specs.Dues.{AreFollowedIn};

use part_links::Told;
use part_persons::Persons;
use std::alloc::AllocError;
use town::DayInput;
use traffic::Occurrence;

/// Persons hear what was told, if anything was: most turns tell nothing.
fn hear(
    day: &DayInput,
    second: u32,
    said: &[Occurrence],
    persons: &mut Persons,
) -> Result<(), AllocError>
    requires second_in { second < LAST_SECOND }
    requires plans { length persons.old.world.persons ≡ length day.now.chosen.now }
    requires wakes { length persons.old.wakes ≡ length persons.old.world.persons }
    ensures world { OnOk result (persons.new.world ≡ record persons.old.world {
      persons = persons_after (setup day.now) second said.now persons.old.world.persons;
    }) }
    ensures followed { (t : ℕ) → AreFollowedIn day.now t persons.old.world.persons persons.old.wakes
        → OnOk result (AreFollowedIn day.now t persons.new.world.persons persons.new.wakes) }
    ensures wakes { OnOk result (length persons.new.wakes ≡ length persons.new.world.persons) }
{
    if said.is_empty() {
        return Ok(());
    }
    persons.hear(day, second, said)
}

/// Persons hear what was told so far, which is told no more then. The list keeps its room.
pub(crate) fn hear_told(
    day: &DayInput,
    second: u32,
    told: &mut Told,
    persons: &mut Persons,
) -> Result<(), AllocError>
    requires second_in { second < LAST_SECOND }
    requires plans { length persons.old.world.persons ≡ length day.now.chosen.now }
    requires wakes { length persons.old.wakes ≡ length persons.old.world.persons }
    ensures world { OnOk result (persons.new.world ≡ record persons.old.world {
      persons = persons_after (setup day.now) second told.old.said.items persons.old.world.persons;
    }) }
    ensures followed { (t : ℕ) → AreFollowedIn day.now t persons.old.world.persons persons.old.wakes
        → OnOk result (AreFollowedIn day.now t persons.new.world.persons persons.new.wakes) }
    ensures wakes { OnOk result (length persons.new.wakes ≡ length persons.new.world.persons) }
    ensures events { told.new.events.items ≡ told.old.events.items }
    ensures said { told.new.said.items ≡ [] }
{
    let heard = hear(day, second, &told.said, persons);
    told.said.clear();
    heard
}
