//! How many events there were.

ghost use Rattle.std.specs.Prelude.{◌≡◌, ◌+◌, ◌++◌, List, [], length, IfSome};
ghost use Rattle.events.specs.declared.event.Event.{Event};
ghost use Rattle.event_handler.specs.Counts.{is_stuck, stuck_count, AreCounted};

use events::{Event, Word};

/// How many events there were, and how many of them tell that a person is stuck.
#[derive(Clone, Copy, Debug, PartialEq, Eq)]
pub struct EventCounts {
    pub events: u64,
    pub stuck: u64,
}

fn is_stuck(word: Word) -> bool
    ensures { result ≡ is_stuck word }
{
    word == Word::StuckAndAbort
}

fn stuck_count(events: &[Event]) -> usize
    ensures { result ≡ stuck_count events.now }
{
    events.iter().filter(|event| is_stuck(event.word)).count()
}

impl EventCounts {
    /// No event.
    pub fn none() -> EventCounts
        ensures { AreCounted result [] }
    {
        EventCounts {
            events: 0,
            stuck: 0,
        }
    }

    /// These and the events of a list, or `None` where there are more than 64 bits count.
    pub fn with(self, events: &[Event]) -> Option<EventCounts>
        ensures counted { IfSome result (λ after. (taken : List Event) → AreCounted self taken
            → AreCounted after (taken ++ events.now)) }
        ensures sum { IfSome result (λ after. after.events ≡ self.events + length events.now) }
    {
        let count = self.events.checked_add(events.len() as u64)?;
        let stuck = self.stuck.checked_add(stuck_count(events) as u64)?;
        Some(EventCounts {
            events: count,
            stuck,
        })
    }
}
