//! What is read of kept rows so far.

ghost use Rattle.std.specs.{Option.ForSome, Prelude.◌≡◌, Prelude.◌<◌, Prelude.◌≤◌, Prelude.length};
ghost use Rattle.plan_memory.specs.declared.TheConstants.{MAX_HELD};

use plan_memory::{MemoryList, ScoreList};
use rows::PlanList;

/// The plans of a person of whom more rows may come, each with a score or none, and the number of the chosen one, where it is among them.
#[derive(Drop)]
pub struct Begun {
    pub plans: PlanList,
    pub scores: ScoreList,
    pub chosen: Option<u32>,
    pub ghost few: { length plans ≤ MAX_HELD },
    pub ghost each: { length scores ≡ length plans },
    pub ghost within: { ForSome chosen (λ place. place < length plans) },
}

/// The memories of the persons whose rows are all read, and what is read of the next one.
#[derive(Drop)]
pub struct Reading {
    pub done: MemoryList,
    pub begun: Begun,
}
