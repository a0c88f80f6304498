/// How likely each strategy is to be picked, beside the others: weights of at most `MAX_WEIGHT`.
#[derive(Clone, Copy, Debug, PartialEq, Eq)]
pub struct StrategyWeights {
    pub keep_last_selected: u64,
    pub best_score: u64,
    pub select_random: u64,
    pub select_logit: u64,
    pub reroute: u64,
    pub time_mutation: u64,
}

/// The settings of replanning; docs/PROFILE.md has the key of settings.json for each.
#[derive(Clone, Copy, Debug, PartialEq, Eq)]
pub struct Learning {
    /// How many plans a person keeps, 1 to `MAX_PLANS`.
    pub memory_size: u32,
    pub weights: StrategyWeights,
    /// By how many micro-utils a plan is worse than the best one where its weight for SelectLogit is half as large, 1 to
    /// `MAX_LOGIT_UNIT`.
    pub logit_unit: u64,
    /// By how many seconds an end of an activity is moved at most, up to `LAST_SECOND`.
    pub mutation_range: u32,
    /// The last iteration before which new plans are made, up to `LAST_ITERATION`.
    pub innovation_last: u32,
}
