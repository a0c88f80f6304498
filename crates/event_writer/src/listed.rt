//! A day that is over.

ghost use Rattle.std.specs.Prelude.{◌≡◌};

use crate::source::EventSource;
use events::Event;
use std::alloc::{AllocError, Global};

/// How many events are given at once.
const EVENTS_AT_ONCE: usize = 1_024;

/// The events of a day that is over, some at once.
#[derive(Drop)]
pub struct ListedEvents {
    events: Vec<Event>,
    /// How many of them were given.
    given: usize,
}

impl ListedEvents {
    /// The events of a day, of which none was given yet.
    pub fn new(events: Vec<Event>) -> ListedEvents
        ensures ready { ⟦<ListedEvents as EventSource>⟧.ready result }
        ensures rest { ⟦<ListedEvents as EventSource>⟧.rest result ≡ events.items }
    {
        ListedEvents { events, given: 0 }
    }
}

impl EventSource for ListedEvents {
    ghost use Rattle.std.specs.Prelude.{◌-◌, ◌≤◌, length, drop};

    ghost rest = { λ s. drop s.given s.events.items };

    ghost pieces = { λ s. length s.events.items - s.given };

    ghost ready = { λ s. s.given ≤ length s.events.items };

    fn next_piece(&mut self, alloc: Global) -> Result<Option<Vec<Event>>, AllocError> {
        let (_, rest) = self.events.split_at(self.given);
        let count = rest.len().min(EVENTS_AT_ONCE);
        if count == 0 {
            return Ok(None);
        }
        let (next, _) = rest.split_at(count);
        let piece = Vec::from_slice(alloc, next)?;
        self.given += count;
        Ok(Some(piece))
    }
}
