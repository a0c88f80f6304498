ghost use Rattle.std.specs.Prelude.{◌≡◌, ◌≢◌, ◌<◌, ◌≤◌, ◌*◌, ℕ, sum};
ghost use Rattle.learning.specs.{Ranges.AreInRange, Strategies.innovating, Strategies.weights_in, Strategies.strategy_of};
ghost use Rattle.learning.specs.{Strategies.HaveNoOtherWeight, declared.TheConstants.MAX_WEIGHT, declared.settings.Learning.Learning};

use crate::settings::Learning;
use draws::pick;

/// How a person replans.
#[derive(Clone, Copy, Debug, PartialEq, Eq)]
pub enum Strategy {
    /// He keeps the plan that he has chosen.
    KeepLastSelected,
    /// He chooses the plan of the highest score.
    BestScore,
    /// He chooses any of his plans, each as likely as another.
    SelectRandom,
    /// He chooses one of his plans, one of a higher score more likely.
    SelectLogit,
    /// He copies the chosen plan, with the routes of least arrival by the travel times of the day before.
    ReRoute,
    /// He copies the chosen plan, with the ends of its activities moved.
    TimeMutation,
}

/// The strategies, in the order of their weights.
pub const STRATEGIES: [Strategy; 6] = [
    Strategy::KeepLastSelected,
    Strategy::BestScore,
    Strategy::SelectRandom,
    Strategy::SelectLogit,
    Strategy::ReRoute,
    Strategy::TimeMutation,
];

/// The weight in an iteration of a strategy that makes new plans.
fn innovating(learning: &Learning, iteration: u32, weight: u64) -> u64
    ensures { result ≡ innovating learning.now iteration weight }
{
    if iteration <= learning.innovation_last {
        weight
    } else {
        0
    }
}

/// The weights of the strategies in an iteration, in their order.
#[tactic(auto, unfolding(crate::specs::Strategies::weights_in))]
fn weights_in(learning: &Learning, iteration: u32) -> [u64; 6]
    requires { AreInRange learning.now }
    ensures weights { result ≡ weights_in learning.now iteration }
    ensures small { sum result ≤ 6 * MAX_WEIGHT }
{
    let weights = learning.weights;
    [
        weights.keep_last_selected,
        weights.best_score,
        weights.select_random,
        weights.select_logit,
        innovating(learning, iteration, weights.reroute),
        innovating(learning, iteration, weights.time_mutation),
    ]
}

/// The strategy that a person's word picks in an iteration, each by its weight.
#[tactic(auto, unfolding(crate::specs::Strategies::strategy_of))]
pub fn strategy_of(learning: &Learning, iteration: u32, word: u32) -> Strategy
    requires { AreInRange learning.now }
    ensures { result ≡ strategy_of learning.now iteration word }
{
    let weights = weights_in(learning, iteration);
    let total: u64 = weights.iter().sum();
    if total == 0 {
        return Strategy::KeepLastSelected;
    }
    STRATEGIES[pick(&weights, word)]
}

/// After the last iteration of innovation no word picks a strategy that makes new plans; and where no other strategy has a weight,
/// everybody keeps the plan that he has chosen.
pub fn strategies_are_picked_by_weight()
    ensures no_reroute { (learning : Learning) (iteration word : ℕ) → learning.innovation_last < iteration
        → strategy_of learning iteration word ≢ Strategy.ReRoute }
    ensures no_mutation { (learning : Learning) (iteration word : ℕ) → learning.innovation_last < iteration
        → strategy_of learning iteration word ≢ Strategy.TimeMutation }
    ensures kept { (learning : Learning) (iteration word : ℕ) → learning.innovation_last < iteration → HaveNoOtherWeight learning
        → strategy_of learning iteration word ≡ Strategy.KeepLastSelected }
{}
