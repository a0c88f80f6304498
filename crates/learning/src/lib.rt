//! How persons learn from day to day: the settings of replanning, and the strategy that a word picks by its weight.
//!
//! The strategies are those of MATSim's replanning (Horni, Nagel and Axhausen (ed.), The Multi-Agent Transport Simulation MATSim, 2016);
//! docs/PROFILE.md states the rules.
#![tactic(auto)]

mod settings;
mod strategies;

pub use settings::{Learning, StrategyWeights};
pub use strategies::{STRATEGIES, Strategy, strategies_are_picked_by_weight, strategy_of};

/// The largest weight of a strategy.
pub const MAX_WEIGHT: u64 = 1_000_000;

/// The largest unit of scores, in micro-utils, by which SelectLogit halves weights.
pub const MAX_LOGIT_UNIT: u64 = 1_000_000_000_000;

/// The largest number of an iteration.
pub const LAST_ITERATION: u32 = 1_000;
