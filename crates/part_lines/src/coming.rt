//! Who comes to the line of a stop.

ghost use Rattle.std.specs.Prelude.{◌≡◌, ◌<◌, length};
ghost use Rattle.town.specs.Views.{setup};
ghost use Rattle.part_lines.specs.Coming.{came};

use person_moves::waiter_in;
use town::{DayInput, chosen_plan};
use traffic::{Person, Place, Waiter};

/// The person as a line has him, where he waits at a stop since this second.
pub(crate) fn came(day: &DayInput, second: u32, number: u32, person: Person) -> Option<Waiter>
    requires { number < length day.now.chosen.now }
    ensures { result ≡ came (setup day.now) second number person }
{
    match person.place {
        Place::At { .. } => None,
        Place::Teleporting { .. } => None,
        Place::Waiting { stop, since } => {
            if since != second {
                return None;
            }
            waiter_in(
                chosen_plan(day, number),
                number,
                person.element,
                stop,
                since,
            )
        }
        Place::Riding { .. } => None,
        Place::Aborted { .. } => None,
    }
}
