//! The settings of replanning.

ghost use Rattle.std.specs.Prelude.{◌≡◌, true, false, IfOk, IfErr};
ghost use Rattle.serde_json.specs.View.{members_view};
ghost use Rattle.learning.specs.Ranges.{AreWeights, AreInRange};
ghost use Rattle.settings.specs.{Keys.has_bad_weight, Keys.has_bad_learning, Values.strategy_weights_in, Values.learning_in};

use crate::keys::{given, given_small};
use edge_files::Reason;
use learning::{LAST_ITERATION, Learning, MAX_LOGIT_UNIT, MAX_WEIGHT, StrategyWeights};
use limits::{LAST_SECOND, MAX_PLANS};
use serde_json::{Map, Value};

/// What the settings say of the weights of strategies, or that one of them is not allowed. Without a key everybody keeps the plan
/// that he has chosen.
#[tactic(auto, unfolding(crate::specs::Keys::has_bad_weight, crate::specs::Values::strategy_weights_in))]
fn strategy_weights_in(settings: &Map<String, Value>) -> Result<StrategyWeights, Reason>
    ensures bad { IfErr result (λ reason. (reason ≡ Reason.ValueBad)
        × (has_bad_weight (members_view settings.now.entries) ≡ true)) }
    ensures good { IfOk result (λ weights. (has_bad_weight (members_view settings.now.entries) ≡ false)
        × (weights ≡ strategy_weights_in (members_view settings.now.entries))) }
    ensures within { IfOk result AreWeights }
{
    let keep_last_selected = given(settings, "weight_keep", 0, MAX_WEIGHT)?.unwrap_or(1);
    let best_score = given(settings, "weight_best", 0, MAX_WEIGHT)?.unwrap_or(0);
    let select_random = given(settings, "weight_random", 0, MAX_WEIGHT)?.unwrap_or(0);
    let select_logit = given(settings, "weight_logit", 0, MAX_WEIGHT)?.unwrap_or(0);
    let reroute = given(settings, "weight_reroute", 0, MAX_WEIGHT)?.unwrap_or(0);
    let time_mutation = given(settings, "weight_time", 0, MAX_WEIGHT)?.unwrap_or(0);
    Ok(StrategyWeights {
        keep_last_selected,
        best_score,
        select_random,
        select_logit,
        reroute,
        time_mutation,
    })
}

/// What the settings say of replanning, or that one of them is not allowed.
#[tactic(auto, unfolding(crate::specs::Keys::has_bad_learning, crate::specs::Values::learning_in))]
pub fn learning_in(settings: &Map<String, Value>) -> Result<Learning, Reason>
    ensures bad { IfErr result (λ reason. (reason ≡ Reason.ValueBad)
        × (has_bad_learning (members_view settings.now.entries) ≡ true)) }
    ensures good { IfOk result (λ learning. (has_bad_learning (members_view settings.now.entries) ≡ false)
        × (learning ≡ learning_in (members_view settings.now.entries))) }
    ensures within { IfOk result AreInRange }
{
    let memory_size = given_small(settings, "memory_size", 1, MAX_PLANS)?.unwrap_or(5);
    let logit_unit = given(settings, "logit_unit", 1, MAX_LOGIT_UNIT)?.unwrap_or(1_000_000);
    let mutation_range = given_small(settings, "mutation_range", 0, LAST_SECOND)?.unwrap_or(1_800);
    let innovation_last = given_small(settings, "innovation_last", 0, LAST_ITERATION)?.unwrap_or(
        1_000,
    );
    let weights = strategy_weights_in(settings)?;
    Ok(Learning {
        memory_size,
        weights,
        logit_unit,
        mutation_range,
        innovation_last,
    })
}
