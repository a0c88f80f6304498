//! A handler of the events of a day.

ghost use Rattle.std.specs.Prelude.{◌≡◌, ◌++◌, List, [], OnOk, IfOk};
ghost use Rattle.events.specs.declared.event.Event.{Event};
ghost use Rattle.scoring.specs.Tables.{ScoringRows, scoring_rows};
ghost use Rattle.event_handler.specs.Handling.{kinds_of, persons_of, links_in, links_seen, HasHandled, CanHandle, IsSeen};

use crate::counts::EventCounts;
use day_scores::Scorers;
use events::Event;
use scoring::Tables;
use std::alloc::{AllocError, Global};
use travel_times::Observations;

/// An event handler: takes the events of a day piece by piece, in their order, scores the persons by them and observes the cars. It stands
/// for all events that it took, and keeps none of them.
#[derive(Drop)]
pub struct EventHandler {
    pub(crate) scorers: Scorers,
    pub(crate) known: Observations,
    pub(crate) counts: EventCounts,
}

/// What was seen of a day that is over.
#[derive(Drop)]
pub struct SeenDay {
    /// What the day is worth to each person, in micro-utils.
    pub scores: Vec<i64>,
    /// What it shows of travel times.
    pub known: Observations,
    pub counts: EventCounts,
}

impl EventHandler {
    /// No event was taken yet. The first activity of each person is of the kind in his place, and there are so many links.
    ///
    /// # Errors
    ///
    /// `AllocError`: there is no memory for a scorer.
    pub fn new(alloc: Global, kinds: &[u32], links: usize) -> Result<EventHandler, AllocError>
        ensures handled { IfOk result (λ handler. (scoring : ScoringRows) → HasHandled scoring handler []) }
        ensures kinds { IfOk result (λ handler. kinds_of handler ≡ kinds.now) }
        ensures links { IfOk result (λ handler. links_in handler ≡ links) }
    {
        let scorers = Scorers::new(alloc, kinds)?;
        let known = Observations::new(alloc, links);
        let counts = EventCounts::none();
        Ok(EventHandler {
            scorers,
            known,
            counts,
        })
    }

    /// Takes the next events of the day.
    ///
    /// # Errors
    ///
    /// `AllocError`: there is no memory for what is seen, or there are more events than 64 bits count. The handler is then of no use.
    pub fn handle(
        &mut self,
        alloc: Global,
        tables: &Tables,
        events: &[Event],
    ) -> Result<(), AllocError>
        requires { (taken rest : List Event) × HasHandled (scoring_rows tables.now) self.old taken
            × CanHandle (persons_of self.old) (links_in self.old) (taken ++ events.now ++ rest) }
        ensures handled { OnOk result ((taken rest : List Event) → HasHandled (scoring_rows tables.now) self.old taken
            → CanHandle (persons_of self.old) (links_in self.old) (taken ++ events.now ++ rest)
            → HasHandled (scoring_rows tables.now) self.new (taken ++ events.now)) }
        ensures kinds { kinds_of self.new ≡ kinds_of self.old }
        ensures links { links_in self.new ≡ links_in self.old }
    {
        let Some(counts) = self.counts.with(events) else {
            return Err(AllocError);
        };
        self.known.take(alloc, events)?;
        self.scorers.take(tables, events);
        self.counts = counts;
        Ok(())
    }

    /// What was seen of the events, when all were taken.
    ///
    /// # Errors
    ///
    /// `AllocError`: there is no memory for a score.
    pub fn finish(self, alloc: Global, tables: &Tables) -> Result<SeenDay, AllocError>
        requires { (taken : List Event) × HasHandled (scoring_rows tables.now) self taken }
        ensures seen { IfOk result (λ seen. (taken : List Event) → HasHandled (scoring_rows tables.now) self taken
            → IsSeen (scoring_rows tables.now) (kinds_of self) taken seen) }
        ensures links { IfOk result (λ seen. links_seen seen ≡ links_in self) }
    {
        let EventHandler {
            scorers,
            known,
            counts,
        } = self;
        let scores = scorers.scores(alloc, tables)?;
        Ok(SeenDay {
            scores,
            known,
            counts,
        })
    }
}
