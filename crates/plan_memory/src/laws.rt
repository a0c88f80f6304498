//! What holds of the worst and the best plan. Each law is the contract of a call that does nothing.

ghost use Rattle.std.specs.Prelude.{◌≡◌, ◌<◌, ◌^◌, ℤ, pos, neg_ℤ, List, [], ◌∷◌, length, slice_index_or, true};
ghost use Rattle.std.specs.Prelude.{Option, None, Some};
ghost use Rattle.plan_memory.specs.{Choices.logit_weights, Scores.is_lowest, Scores.is_highest, Scores.worst, Scores.best};

/// Of any plans the worst one has a score that is no higher than any, and the best one has a score that is no lower than any. A plan
/// without a score counts as the worst and as the best.
pub fn worst_and_best_plans_are_there()
    ensures worst { (scores : List (Option ℤ)) → 0 < length scores
        → is_lowest scores (slice_index_or scores (worst scores) None) ≡ true }
    ensures best { (scores : List (Option ℤ)) → 0 < length scores
        → is_highest scores (slice_index_or scores (best scores) None) ≡ true }
{}

/// What the definitions give of some scores, computed from them alone: the first of two equal scores is the worst; a plan without a score
/// is the worst and the best; and ten micro-utils less halve a weight where they are the unit.
pub fn worked_scores()
    ensures first { worst (Some (pos 5) ∷ Some (pos 3) ∷ Some (pos 3) ∷ Some (pos 9) ∷ Some (pos 8) ∷ Some (pos 7) ∷ []) ≡ 1 }
    ensures highest { best (Some (pos 5) ∷ Some (pos 9) ∷ Some (neg_ℤ (pos 3)) ∷ Some (pos 9) ∷ []) ≡ 1 }
    ensures untried_worst { worst (Some (pos 5) ∷ None ∷ Some (pos 3) ∷ None ∷ []) ≡ 1 }
    ensures untried_best { best (Some (pos 5) ∷ None ∷ Some (pos 9) ∷ None ∷ []) ≡ 1 }
    ensures weights { logit_weights 10 (Some (pos 100) ∷ Some (pos 90) ∷ None ∷ []) ≡ 2 ^ 30 ∷ 2 ^ 29 ∷ 2 ^ 30 ∷ [] }
    ensures least_weight { logit_weights 10 (Some (pos 1000) ∷ Some (neg_ℤ (pos 90)) ∷ []) ≡ 2 ^ 30 ∷ 1 ∷ [] }
{}
