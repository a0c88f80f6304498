ghost use Rattle.std.specs.Prelude.{◌≡◌, ◌↔◌, IsSome, IfSome};
ghost use Rattle.scoring.specs.{Ranges.IsWithin, Score.score, Tables.scoring_rows, Taken.AllFollow, declared.TheConstants.MAX_SCORE};

use crate::MAX_EVENTS;
use crate::scorer::Scorer;
use crate::tables::Tables;
use events::Event;

/// The score of a person with these events, in micro-utils, or `None` exactly where one of them may
/// not follow those before it.
pub fn score_of(tables: &Tables, first_kind: u32, events: &[Event]) -> Option<i64>
    ensures score { IfSome result (λ s. s ≡ score (scoring_rows tables.now) first_kind events.now) }
    ensures small { IfSome result (IsWithin MAX_SCORE) }
    ensures all { IsSome result ↔ AllFollow events.now }
{
    let mut scorer = Scorer::new(first_kind);
    for (place, event) in events.iter().enumerate() {
        if place >= MAX_EVENTS || !scorer.may_take(event) {
            return None;
        }
        scorer.take(tables, event);
    }
    Some(scorer.finish(tables))
}
