//! A scorer for each person, and the events of a day taken by them, piece by piece.

ghost use Rattle.std.specs.Prelude.{◌≡◌, ◌++◌, ◌∷◌, [], length, map, List, IfOk, All};
ghost use Rattle.events.specs.declared.event.Event.{Event};
ghost use Rattle.scoring.specs.{Ranges.IsWithin, Tables.ScoringRows, Tables.scoring_rows, Taken.first_kind_of};
ghost use Rattle.scoring.specs.declared.TheConstants.{MAX_SCORE};
ghost use Rattle.day_scores.specs.{Scores.scores_of, Standing.StandFor, Standing.MayCome, Standing.AllCome, Standing.AreScored};

use events::Event;
use scoring::{Scorer, Tables};
use std::alloc::{AllocError, Global};
use std::marker::Model;

/// A scorer for each person, whose first activity is of the kind in his place. None has taken an event.
fn new_scorers(alloc: Global, kinds: &[u32]) -> Result<Vec<Scorer>, AllocError>
    ensures kinds { IfOk result (λ scorers. map first_kind_of scorers.items ≡ kinds.now) }
    ensures stand { IfOk result (λ scorers. (scoring : ScoringRows) → StandFor scoring scorers.items []) }
{
    let mut scorers = Vec::new(alloc);
    for kind in kinds {
        scorers.push(Scorer::new(*kind))?;
    }
    Ok(scorers)
}

/// The person whom the event names takes it, where he is one of theirs.
fn take_event(scorers: &mut Vec<Scorer>, tables: &Tables, event: &Event)
    requires { (taken : List Event) × StandFor (scoring_rows tables.now) scorers.old.items taken
        × MayCome (length scorers.old.items) taken event.now }
    ensures kinds { map first_kind_of scorers.new.items ≡ map first_kind_of scorers.old.items }
    ensures stand { (taken : List Event) → StandFor (scoring_rows tables.now) scorers.old.items taken
        → MayCome (length scorers.old.items) taken event.now
        → StandFor (scoring_rows tables.now) scorers.new.items (taken ++ event.now ∷ []) }
{
    let Some(person) = event.person else {
        return;
    };
    let place = person as usize;
    if place >= scorers.len() {
        return;
    }
    let mut scorer = scorers[place];
    scorer.take(tables, event);
    scorers[place] = scorer;
}

/// The events are taken, in their order.
fn take_events(scorers: &mut Vec<Scorer>, tables: &Tables, events: &[Event])
    requires { (taken : List Event) × StandFor (scoring_rows tables.now) scorers.old.items taken
        × AllCome (length scorers.old.items) taken events.now }
    ensures kinds { map first_kind_of scorers.new.items ≡ map first_kind_of scorers.old.items }
    ensures stand { (taken : List Event) → StandFor (scoring_rows tables.now) scorers.old.items taken
        → AllCome (length scorers.old.items) taken events.now
        → StandFor (scoring_rows tables.now) scorers.new.items (taken ++ events.now) }
{
    for event in events {
        take_event(scorers, tables, event);
    }
}

/// The scores that the scorers give, in micro-utils.
fn finished(alloc: Global, tables: &Tables, scorers: &[Scorer]) -> Result<Vec<i64>, AllocError>
    requires { (taken : List Event) × StandFor (scoring_rows tables.now) scorers.now taken }
    ensures scores { IfOk result (λ scores. (taken : List Event) → StandFor (scoring_rows tables.now) scorers.now taken
        → scores.items ≡ scores_of (scoring_rows tables.now) (map first_kind_of scorers.now) taken) }
    ensures within { IfOk result (λ scores. All (IsWithin MAX_SCORE) scores.items) }
{
    let mut scores = Vec::new(alloc);
    for scorer in scorers {
        let score = scorer.finish(tables);
        scores.push(score)?;
    }
    Ok(scores)
}

/// A scorer for each person of a day, by the persons' numbers. They take the events of the day piece by piece, in their order; what they
/// give is what they would give if all had come at once: what each person's own events are worth, after MATSim's scoring (the MATSim book,
/// chapter "A Closer Look at Scoring"). No list of a person's events is made.
#[derive(Drop)]
pub struct Scorers {
    rows: Vec<Scorer>,
}

impl Model for Scorers {
    ghost use Rattle.std.specs.Prelude.{List};
    ghost use Rattle.scoring.specs.declared.scorer.Scorer.{Scorer};

    ghost Value = { List Scorer };

    ghost view = { λ s. s.rows.items };
}

impl Scorers {
    /// Nobody has taken an event. The first activity of each person is of the kind in his place.
    ///
    /// # Errors
    ///
    /// `AllocError`: there is no memory for a scorer.
    pub fn new(alloc: Global, kinds: &[u32]) -> Result<Scorers, AllocError>
        ensures kinds { IfOk result (λ scorers. map first_kind_of scorers ≡ kinds.now) }
        ensures stand { IfOk result (λ scorers. (scoring : ScoringRows) → StandFor scoring scorers []) }
    {
        let rows = new_scorers(alloc, kinds)?;
        Ok(Scorers { rows })
    }

    /// Takes the next events of the day. An event that names none of the persons counts for nobody.
    pub fn take(&mut self, tables: &Tables, events: &[Event])
        requires { (taken rest : List Event) × StandFor (scoring_rows tables.now) self.old taken
            × AreScored (length self.old) (taken ++ events.now ++ rest) }
        ensures kinds { map first_kind_of self.new ≡ map first_kind_of self.old }
        ensures stand { (taken rest : List Event) → StandFor (scoring_rows tables.now) self.old taken
            → AreScored (length self.old) (taken ++ events.now ++ rest)
            → StandFor (scoring_rows tables.now) self.new (taken ++ events.now) }
    {
        take_events(&mut self.rows, tables, events);
    }

    /// What the events that were taken are worth to each person, in micro-utils.
    ///
    /// # Errors
    ///
    /// `AllocError`: there is no memory for a score.
    pub fn scores(&self, alloc: Global, tables: &Tables) -> Result<Vec<i64>, AllocError>
        requires { (taken : List Event) × StandFor (scoring_rows tables.now) self.now taken }
        ensures scores { IfOk result (λ scores. (taken : List Event) → StandFor (scoring_rows tables.now) self.now taken
            → scores.items ≡ scores_of (scoring_rows tables.now) (map first_kind_of self.now) taken) }
        ensures within { IfOk result (λ scores. All (IsWithin MAX_SCORE) scores.items) }
    {
        finished(alloc, tables, &self.rows)
    }
}
