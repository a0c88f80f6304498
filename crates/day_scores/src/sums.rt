ghost use Rattle.std.specs.Prelude.{◌≡◌, ◌≤◌, length, All};
ghost use Rattle.limits.specs.declared.TheConstants.{MAX_PERSONS};
ghost use Rattle.scoring.specs.{Ranges.IsWithin, Score.total, declared.TheConstants.MAX_SCORE};

/// The sum of the scores of as many persons as there may be, in micro-utils. It fits into 64 bits, also
/// where each of 65,536 scores is the largest or the least that there is.
pub fn sum_of(scores: &[i64]) -> i64
    requires few { length scores.now ≤ MAX_PERSONS }
    requires within { All (IsWithin MAX_SCORE) scores.now }
    ensures { result ≡ total scores.now }
{
    let mut sum = 0;
    for score in scores {
        sum += *score;
    }
    sum
}
