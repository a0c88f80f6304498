ghost use Rattle.std.specs.Prelude.{◌≡◌, ◌<◌, ◌≤◌, ◌↔◌, pos, None, IsTrue, length, List, [], ◌∷◌, ◌++◌};
ghost use Rattle.std.specs.Option.{ForSome};
ghost use Rattle.events.specs.declared.event.Event.{Event};
ghost use Rattle.scoring.specs.{Ranges.IsWithin, Score.score, Steps.with_activity_ended};
ghost use Rattle.scoring.specs.Steps.{with_leg_begun, with_leg_ended, with_activity_begun, with_event, last_worth, is_next};
ghost use Rattle.scoring.specs.{Tables.ScoringRows, Tables.scoring_rows, Taken.first_kind_of, Taken.MayFollow, Taken.IsTakenBy};
ghost use Rattle.scoring.specs.declared.TheConstants.{MAX_EVENTS, MAX_SCORE, MAX_WORTH};

use crate::SCORING_DAY;
use crate::tables::Tables;
use crate::worths::{activity_worth, leg_worth, seconds_late};
use events::{Event, Mode, More, Word};
use limits::LAST_SECOND;

/// What the person is doing.
#[derive(Clone, Copy, Debug, PartialEq, Eq)]
enum Doing {
    /// At an activity of a kind, since a second.
    Activity { kind: u32, since: u32 },
    /// The activity has ended, and no leg has departed.
    Leaving,
    /// On a leg by a mode, since a second.
    Leg { mode: Mode, since: u32 },
    /// The leg has arrived, and no activity has started.
    Arriving,
    /// Stuck, and so until the day is over.
    Stuck,
}

/// Scores the events of one person, as they come, in a few numbers.
///
/// It stands for the events that it has taken, by the tables by which it took them
/// (`Taken: IsTakenBy`); a new one stands for none of them by any tables.
#[derive(Clone, Copy, Debug, PartialEq, Eq)]
pub struct Scorer {
    first_kind: u32,
    /// When the first activity ended, if it has.
    first_end: Option<u32>,
    doing: Doing,
    /// What the activities and legs are worth that have ended, but for the first activity, with what
    /// lateness and being stuck cost.
    sum: i64,
}

impl Scorer {
    /// The scorer of a person whose first activity is of this kind. It has taken no event.
    pub fn new(first_kind: u32) -> Scorer
        ensures kind { first_kind_of result ≡ first_kind }
        ensures stands { (tables : ScoringRows) → IsTakenBy tables result [] }
    {
        Scorer {
            first_kind,
            first_end: None,
            doing: Doing::Activity {
                kind: first_kind,
                since: 0,
            },
            sum: 0,
        }
    }

    /// Takes the next event of the person, by the same tables as the events before it: one of at most 64
    /// in all, at a second of at most `LAST_SECOND`.
    ///
    /// The five words that score come in turn: `actend`, `departure`, `arrival`, `actstart` and so
    /// on, and nothing behind a `stuckAndAbort` in the place of an arrival. Other words change
    /// nothing.
    #[tactic(auto)]
    pub fn take(&mut self, tables: &Tables, event: &Event)
        requires { (taken : List Event) × IsTakenBy (scoring_rows tables.now) self.old taken × MayFollow taken event.now }
        ensures kind { first_kind_of self.new ≡ first_kind_of self.old }
        ensures stands { (taken : List Event) → IsTakenBy (scoring_rows tables.now) self.old taken → MayFollow taken event.now
            → IsTakenBy (scoring_rows tables.now) self.new (taken ++ event.now ∷ []) }
    {
        *self = self.with_event(tables, event);
    }

    /// Whether an event may be taken next, of a scorer that has taken fewer than 64: it is within the
    /// day and in turn, and it tells what it is scored by.
    pub fn may_take(&self, event: &Event) -> bool
        ensures { (tables : ScoringRows) (taken : List Event) → IsTakenBy tables self.now taken → length taken < MAX_EVENTS
            → IsTrue result ↔ MayFollow taken event.now }
    {
        event.key.second <= LAST_SECOND && self.is_next(event.word, event.more)
    }

    // Whether an event of a word comes next.
    fn is_next(&self, word: Word, more: More) -> bool
        ensures { result ≡ is_next word more self.now.doing }
    {
        match word {
            Word::ActEnd => matches!(self.doing, Doing::Activity { .. }),
            Word::Departure => {
                matches!(self.doing, Doing::Leaving) && matches!(more, More::Mode(_))
            }
            Word::Arrival | Word::StuckAndAbort => matches!(self.doing, Doing::Leg { .. }),
            Word::ActStart => {
                matches!(self.doing, Doing::Arriving) && matches!(more, More::Kind(_))
            }
            _ => true,
        }
    }

    /// The score of the events that were taken, in micro-utils, by the tables by which they were.
    #[tactic(auto)]
    pub fn finish(self, tables: &Tables) -> i64
        requires { (taken : List Event) × IsTakenBy (scoring_rows tables.now) self taken }
        ensures score { (taken : List Event) → IsTakenBy (scoring_rows tables.now) self taken
            → result ≡ score (scoring_rows tables.now) (first_kind_of self) taken }
        ensures small { IsWithin MAX_SCORE result }
    {
        self.sum + self.last_worth(tables)
    }

    // The scorer behind an event.
    fn with_event(self, tables: &Tables, event: &Event) -> Scorer
        requires in_day { event.now.key.second ≤ LAST_SECOND }
        requires small { IsWithin MAX_SCORE self.sum }
        ensures { result ≡ with_event (scoring_rows tables.now) self event.now.word event.now.more event.now.key.second }
    {
        let second = event.key.second;
        match event.word {
            Word::ActEnd => self.with_activity_ended(tables, second),
            Word::Departure => self.with_leg_begun(event.more, second),
            Word::Arrival => self.with_leg_ended(tables, second, 0, Doing::Arriving),
            Word::ActStart => self.with_activity_begun(tables, event.more, second),
            Word::StuckAndAbort => {
                self.with_leg_ended(tables, second, tables.stuck, Doing::Stuck)
            }
            _ => self,
        }
    }

    // An activity ends: of the first one it is kept when, any other one is worth what it took.
    fn with_activity_ended(self, tables: &Tables, second: u32) -> Scorer
        requires { IsWithin MAX_SCORE self.sum }
        ensures { result ≡ with_activity_ended tables.now.tables self second self.doing self.first_end }
    {
        let Doing::Activity { kind, since } = self.doing else {
            return self;
        };
        if self.first_end.is_none() {
            return Scorer {
                first_end: Some(second),
                doing: Doing::Leaving,
                ..self
            };
        }
        let worth = activity_worth(tables, kind, second.saturating_sub(since));
        Scorer {
            doing: Doing::Leaving,
            sum: self.sum + worth,
            ..self
        }
    }

    // A leg departs.
    fn with_leg_begun(self, more: More, second: u32) -> Scorer
        ensures { result ≡ with_leg_begun self second more }
    {
        let More::Mode(mode) = more else {
            return self;
        };
        Scorer {
            doing: Doing::Leg {
                mode,
                since: second,
            },
            ..self
        }
    }

    // A leg ends: the person arrives or is stuck, and `paid` is added besides.
    fn with_leg_ended(self, tables: &Tables, second: u32, paid: i64, next: Doing) -> Scorer
        requires in_day { second ≤ LAST_SECOND }
        requires small { IsWithin MAX_SCORE self.sum }
        requires paid_in { IsWithin MAX_WORTH paid }
        ensures { result ≡ with_leg_ended (scoring_rows tables.now) self second paid next self.doing }
    {
        let Doing::Leg { mode, since } = self.doing else {
            return self;
        };
        let worth = leg_worth(tables, mode, second.saturating_sub(since));
        Scorer {
            doing: next,
            sum: self.sum + (worth + paid),
            ..self
        }
    }

    // An activity starts, maybe late.
    fn with_activity_begun(self, tables: &Tables, more: More, second: u32) -> Scorer
        requires in_day { second ≤ LAST_SECOND }
        requires small { IsWithin MAX_SCORE self.sum }
        ensures { result ≡ with_activity_begun (scoring_rows tables.now) self second more }
    {
        let More::Kind(kind) = more else {
            return self;
        };
        let late = seconds_late(tables, kind, second);
        Scorer {
            doing: Doing::Activity {
                kind,
                since: second,
            },
            sum: self.sum + tables.late_per_second * i64::from(late),
            ..self
        }
    }

    // What the first activity and one that has not ended are worth.
    fn last_worth(self, tables: &Tables) -> i64
        requires { ForSome self.first_end (λ second. second ≤ LAST_SECOND) }
        ensures value { result ≡ last_worth tables.now.tables self.first_kind self.first_end self.doing }
        ensures within { IsWithin (pos 2000000000000) result }
    {
        let Some(left) = self.first_end else {
            return self.open_worth(tables);
        };
        let Doing::Activity { kind, since } = self.doing else {
            return activity_worth(tables, self.first_kind, left);
        };
        if kind == self.first_kind {
            return activity_worth(tables, kind, (SCORING_DAY + left).saturating_sub(since));
        }
        activity_worth(tables, self.first_kind, left) + self.open_worth(tables)
    }

    // What an activity that has not ended is worth by itself.
    fn open_worth(self, tables: &Tables) -> i64
        ensures value { result ≡ last_worth tables.now.tables self.first_kind None self.doing }
        ensures within { IsWithin MAX_WORTH result }
    {
        let Doing::Activity { kind, since } = self.doing else {
            return 0;
        };
        activity_worth(tables, kind, SCORING_DAY.saturating_sub(since))
    }
}
