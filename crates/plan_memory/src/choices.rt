ghost use Rattle.std.specs.Prelude.{◌≡◌, ◌<◌, ◌≤◌, ◌^◌, ◌*◌, length, map, replicate, sum, ℤ};
ghost use Rattle.plan_memory.specs.Choices.{halvings, logit_weight, logit_weights, place_chosen};
ghost use Rattle.plan_memory.specs.{Scores.highest, declared.TheConstants.MAX_HELD};

use crate::MAX_HELD;
use crate::scores::{best, highest};
use arrayvec::ArrayVec;
use draws::pick;

/// How one of a person's plans is chosen.
#[derive(Clone, Copy, Debug, PartialEq, Eq)]
pub enum Choice {
    /// The one of the highest score, or one without a score before all others.
    Best,
    /// Any one, each as likely as another.
    Random,
    /// By weights that are halved once for each unit of scores by which a plan is worse than the best one.
    Logit,
}

/// How often the weight of a score is halved.
fn halvings(unit: u64, most: i64, score: i64) -> u32
    requires { 1 ≤ unit }
    ensures count { result ≡ halvings unit most score }
    ensures few { result ≤ 30 }
{
    (most.abs_diff(score) / unit).min(30) as u32
}

/// The weight of a plan, where the highest score is `most`.
fn logit_weight(unit: u64, most: i64, score: Option<i64>) -> u64
    requires { 1 ≤ unit }
    ensures weight { result ≡ logit_weight unit most score }
    ensures some { 1 ≤ result }
    ensures small { result ≤ 2 ^ 30 }
{
    match score {
        None => 1 << 30,
        Some(score) => 1 << (30 - halvings(unit, most, score)),
    }
}

/// The weights of plans with these scores.
#[tactic(auto, unfolding(crate::specs::Choices::logit_weights))]
fn logit_weights(unit: u64, scores: &[Option<i64>]) -> ArrayVec<u64, MAX_HELD>
    requires unit { 1 ≤ unit }
    requires few { length scores.now ≤ MAX_HELD }
    ensures weights { result.items ≡ logit_weights unit scores.now }
    ensures count { length result.items ≡ length scores.now }
    ensures small { sum result.items ≤ 2 ^ 30 * length scores.now }
    ensures some { length scores.now ≤ sum result.items }
{
    let most = highest(scores).unwrap_or(0);
    let mut weights = ArrayVec::new();
    for score in scores {
        weights.push(logit_weight(unit, most, *score));
    }
    weights
}

/// As many weights of 1.
fn even_weights(count: usize) -> ArrayVec<u64, MAX_HELD>
    requires { count ≤ MAX_HELD }
    ensures { result.items ≡ replicate count 1 }
{
    let mut weights = ArrayVec::from_array_in((), [1; MAX_HELD]);
    weights.truncate(count);
    weights
}

/// The place of the plan that is chosen among plans with these scores, by a random word. `unit` is that of SelectLogit.
#[tactic(auto, unfolding(crate::specs::Choices::place_chosen))]
pub fn place_chosen(how: Choice, unit: u64, word: u32, scores: &[Option<i64>]) -> usize
    requires unit { 1 ≤ unit }
    requires some { 0 < length scores.now }
    requires few { length scores.now ≤ MAX_HELD }
    ensures place { result ≡ place_chosen how unit word scores.now }
    ensures within { result < length scores.now }
{
    match how {
        Choice::Best => best(scores),
        Choice::Random => pick(even_weights(scores.len()).as_slice(), word),
        Choice::Logit => pick(logit_weights(unit, scores).as_slice(), word),
    }
}
