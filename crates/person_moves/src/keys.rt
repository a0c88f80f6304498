//! The keys of what is told in a turn.

ghost use Rattle.std.specs.Prelude.{◌≡◌, ◌++◌, OnOk};
ghost use Rattle.events.specs.Keys.{phase_code};
ghost use Rattle.traffic.specs.Day.{event_at, keyed};

use events::{Event, Key, Phase};
use std::alloc::AllocError;
use traffic::Occurrence;

/// What is told, with its key.
fn event_at(second: u32, phase: u8, number: u32, index: u32, said: &Occurrence) -> Event
    ensures { result ≡ event_at second phase number index said.now }
{
    Event {
        key: Key {
            second,
            phase,
            number,
            index,
        },
        word: said.word,
        person: said.person,
        vehicle: said.vehicle,
        link: said.link,
        more: said.more,
    }
}

/// Appends what is told in the turn of this number, with its keys. Events are counted in memory:
/// where no number counts them, there is no memory for them.
#[tactic(auto, unfolding(traffic::specs::Day::keyed))]
pub fn push_keyed(
    second: u32,
    phase: Phase,
    number: u32,
    said: &[Occurrence],
    out: &mut Vec<Event>,
) -> Result<(), AllocError>
    ensures { OnOk result (out.new.items ≡ out.old.items ++ keyed second (phase_code phase) number 0 said.now) }
{
    let code = phase.code();
    let mut index: u32 = 0;
    let mut rest = said;
    while let [event, later @ ..] = rest {
        out.push(event_at(second, code, number, index, event))?;
        let Some(next) = index.checked_add(1) else {
            return Err(AllocError);
        };
        index = next;
        rest = later;
    }
    Ok(())
}
