ghost use Rattle.std.specs.{List.list_all, Prelude.◌≡◌, Prelude.◌<◌, Prelude.length, Prelude.position, Prelude.IfSome};
ghost use Rattle.plan_memory.specs.Scores.{is_at_most, is_at_least, is_lowest, is_highest, worst, best, higher, highest};

use events::Rows;

/// Scores in micro-utils, by the plans' places; a plan that was not tried yet has none.
pub type ScoreList = Rows<Option<i64>>;

/// Whether a score is no higher than another, where no score is the lowest.
fn is_at_most(score: Option<i64>, other: Option<i64>) -> bool
    ensures { result ≡ is_at_most score other }
{
    match (score, other) {
        (None, _) => true,
        (Some(_), None) => false,
        (Some(score), Some(other)) => score <= other,
    }
}

/// Whether a score is no lower than another, where no score is the highest.
fn is_at_least(score: Option<i64>, other: Option<i64>) -> bool
    ensures { result ≡ is_at_least score other }
{
    match (score, other) {
        (None, _) => true,
        (Some(_), None) => false,
        (Some(score), Some(other)) => other <= score,
    }
}

#[tactic(auto, unfolding(crate::specs::Scores::is_lowest))]
fn is_lowest(scores: &[Option<i64>], score: Option<i64>) -> bool
    ensures { result ≡ is_lowest scores.now score }
{
    scores.iter().all(|&other| is_at_most(score, other))
}

#[tactic(auto, unfolding(crate::specs::Scores::is_highest))]
fn is_highest(scores: &[Option<i64>], score: Option<i64>) -> bool
    ensures { result ≡ is_highest scores.now score }
{
    scores.iter().all(|&other| is_at_least(score, other))
}

/// The first place of a score that is no higher than any.
fn first_lowest(scores: &[Option<i64>]) -> Option<usize>
    ensures place { result ≡ position (is_lowest scores.now) scores.now }
    ensures within { IfSome result (λ place. place < length scores.now) }
{
    scores.iter().position(|&score| is_lowest(scores, score))
}

/// The first place of a score that is no lower than any.
fn first_highest(scores: &[Option<i64>]) -> Option<usize>
    ensures place { result ≡ position (is_highest scores.now) scores.now }
    ensures within { IfSome result (λ place. place < length scores.now) }
{
    scores.iter().position(|&score| is_highest(scores, score))
}

/// The place of the worst plan: the first one without a score, or else the first one of the lowest score.
#[tactic(auto, unfolding(crate::specs::Scores::worst))]
pub fn worst(scores: &[Option<i64>]) -> usize
    requires { 0 < length scores.now }
    ensures place { result ≡ worst scores.now }
    ensures within { result < length scores.now }
{
    first_lowest(scores).unwrap_or(0)
}

/// The place of the best plan: the first one without a score, or else the first one of the highest score.
#[tactic(auto, unfolding(crate::specs::Scores::best))]
pub fn best(scores: &[Option<i64>]) -> usize
    requires { 0 < length scores.now }
    ensures place { result ≡ best scores.now }
    ensures within { result < length scores.now }
{
    first_highest(scores).unwrap_or(0)
}

fn higher(score: Option<i64>, other: Option<i64>) -> Option<i64>
    ensures { result ≡ higher score other }
{
    match (score, other) {
        (None, _) => other,
        (Some(score), None) => Some(score),
        (Some(score), Some(other)) => Some(score.max(other)),
    }
}

/// The highest score of the plans that have one.
pub fn highest(scores: &[Option<i64>]) -> Option<i64>
    ensures { result ≡ highest scores.now }
{
    let mut found = None;
    let mut rest = scores;
    while let [score, after @ ..] = rest {
        found = higher(found, *score);
        rest = after;
    }
    found
}
