ghost use Rattle.std.specs.Prelude.{◌≡◌, ◌<◌, ◌≤◌, length, map, remove, replicate, slice_get, slice_index_or, Some, None};
ghost use Rattle.std.specs.Prelude.{OnOk, OnErr};
ghost use Rattle.rows.specs.PlanRows.{plan_rows};
ghost use Rattle.plan_memory.specs.Memories.{first_memory, chosen_plan, with_score, with_plan, with_choice, chosen_without, without};
ghost use Rattle.plan_memory.specs.{Memories.reduced, declared.TheConstants.MAX_HELD};

use crate::MAX_HELD;
use crate::choices::{Choice, place_chosen};
use crate::scores::{ScoreList, best, worst};
use arrayvec::ArrayVec;
use events::Rows;
use rows::{Plan, PlanList};
use std::alloc::AllocError;
use std::marker::Model;

/// A person's plans, each with a score or none, of which one is chosen.
///
/// There are 1 to `MAX_HELD` of them. Contracts see the plans by their activities and legs.
#[derive(Drop)]
pub struct Memory {
    plans: PlanList,
    scores: ArrayVec<Option<i64>, MAX_HELD>,
    chosen: u32,
}

impl Model for Memory {
    ghost use Rattle.plan_memory.specs.Memories.{MemoryRows};

    ghost Value = { MemoryRows };

    ghost use Rattle.plan_memory.specs.Views.{memory_of, IsMemory};

    ghost view = { memory_of };

    ghost invariant = { IsMemory };
}

/// The memories of all persons, by the persons' numbers.
pub type MemoryList = Rows<Memory>;

/// As many plans without a score.
fn no_scores(count: usize) -> ArrayVec<Option<i64>, MAX_HELD>
    requires { count ≤ MAX_HELD }
    ensures { result.items ≡ replicate count None }
{
    let mut scores = ArrayVec::from_array_in((), [None; MAX_HELD]);
    scores.truncate(count);
    scores
}

/// Takes the plan at a place out of a list.
fn remove_plan(plans: &mut PlanList, place: usize)
    requires { place < length plans.old }
    ensures { plans.new ≡ remove plans.old place }
{
    plans.rows.remove(place);
}

/// The scores that were kept.
fn kept_scores(scores: &[Option<i64>]) -> ArrayVec<Option<i64>, MAX_HELD>
    requires { length scores.now ≤ MAX_HELD }
    ensures { result.items ≡ scores.now }
{
    let mut kept = ArrayVec::new();
    for score in scores {
        kept.push(*score);
    }
    kept
}

/// The place of the chosen plan, of plans of which the one at `place` was dropped and those with these scores are left.
fn chosen_without(left: &[Option<i64>], place: usize, chosen: u32) -> u32
    requires some { 0 < length left.now }
    requires few { length left.now ≤ MAX_HELD }
    requires place { place ≤ length left.now }
    requires chosen { chosen ≤ length left.now }
    ensures chosen { result ≡ chosen_without left.now place chosen }
    ensures within { result < length left.now }
{
    if chosen as usize == place {
        return best(left) as u32;
    }
    if place < chosen as usize {
        return chosen - 1;
    }
    chosen
}

impl Memory {
    /// The memory of a person who has tried none of these plans: the first one is chosen.
    pub fn of_plans(plans: PlanList) -> Memory
        requires some { 1 ≤ length plans }
        requires few { length plans ≤ MAX_HELD }
        ensures { result ≡ first_memory (map plan_rows plans) }
    {
        let scores = no_scores(plans.len());
        Memory {
            plans,
            scores,
            chosen: 0,
        }
    }

    /// A memory that was kept: its plans, their scores, and the place of the chosen one.
    pub fn of_kept(plans: PlanList, scores: ScoreList, chosen: u32) -> Memory
        requires few { length plans ≤ MAX_HELD }
        requires each { length scores ≡ length plans }
        requires chosen { chosen < length plans }
        ensures { result ≡ record { plans = map plan_rows plans; scores = scores; chosen = chosen } }
    {
        let scores = kept_scores(&scores.rows);
        Memory {
            plans,
            scores,
            chosen,
        }
    }

    /// How many plans there are, 1 to `MAX_HELD`.
    pub fn len(&self) -> u32
        ensures count { result ≡ length self.now.plans }
        ensures some { 1 ≤ result }
        ensures few { result ≤ MAX_HELD }
        ensures each { length self.now.scores ≡ result }
        ensures chosen { self.now.chosen < result }
    {
        self.plans.len() as u32
    }

    /// The plan at a place.
    pub fn plan(&self, index: u32) -> &Plan
        requires { index < length self.now.plans }
        ensures { slice_get self.now.plans index ≡ Some (plan_rows result.now) }
    {
        &self.plans.rows[index as usize]
    }

    /// The place of the chosen plan.
    pub fn chosen(&self) -> u32
        ensures place { result ≡ self.now.chosen }
        ensures within { result < length self.now.plans }
    {
        self.chosen
    }

    /// The chosen plan.
    pub fn chosen_plan(&self) -> &Plan
        ensures { plan_rows result.now ≡ chosen_plan self.now }
    {
        &self.plans.rows[self.chosen as usize]
    }

    /// The score of the plan at a place, in micro-utils, where it was tried.
    pub fn score(&self, index: u32) -> Option<i64>
        requires { index < length self.now.plans }
        ensures { result ≡ slice_index_or self.now.scores index None }
    {
        self.scores.as_slice()[index as usize]
    }

    /// Gives the chosen plan a score, in micro-utils.
    pub fn set_score(&mut self, score: i64)
        ensures { self.new ≡ with_score self.old score }
    {
        self.scores[self.chosen as usize] = Some(score);
    }

    /// Adds a plan: it goes last, has no score, and is chosen. Without memory nothing changes.
    pub fn add(&mut self, plan: Plan) -> Result<(), AllocError>
        requires { length self.old.plans < MAX_HELD }
        ensures added { OnOk result (self.new ≡ with_plan self.old (plan_rows plan)) }
        ensures same { OnErr result (self.new ≡ self.old) }
    {
        let place = self.plans.len() as u32;
        self.plans.rows.push(plan)?;
        self.scores.push(None);
        self.chosen = place;
        Ok(())
    }

    /// Drops the plan at a place.
    fn drop_plan(&mut self, place: usize)
        requires place { place < length self.old.plans }
        requires two { 2 ≤ length self.old.plans }
        ensures { self.new ≡ without place self.old }
    {
        remove_plan(&mut self.plans, place);
        self.scores.remove(place);
        self.chosen = chosen_without(self.scores.as_slice(), place, self.chosen);
    }

    /// Drops the worst plan while there are more than `size`: the first one without a score, or else the first one of the lowest score.
    /// Where that was the chosen one, the best of those that are left is chosen.
    pub fn drop_worst(&mut self, size: u32)
        requires { 1 ≤ size }
        ensures reduced { self.new ≡ reduced size self.old }
        ensures few { length self.old.plans ≤ size → length self.new.plans ≡ length self.old.plans }
        ensures most { size ≤ length self.old.plans → length self.new.plans ≡ size }
    {
        while self.len() > size {
            let place = worst(self.scores.as_slice());
            self.drop_plan(place);
        }
    }

    /// Chooses among the plans, by a random word. `unit` is by how many micro-utils a plan is worse than the best one where its weight
    /// for `Choice::Logit` is half as large.
    pub fn choose(&mut self, how: Choice, unit: u64, word: u32)
        requires { 1 ≤ unit }
        ensures { self.new ≡ with_choice how unit word self.old }
    {
        self.chosen = place_chosen(how, unit, word, self.scores.as_slice()) as u32;
    }
}
