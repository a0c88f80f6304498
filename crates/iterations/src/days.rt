//! What is made of the days of a run.

ghost use Rattle.std.specs.Prelude.{◌≡◌, List, length, map, slice_get, IfOk};
ghost use Rattle.events.specs.declared.event.Event.{Event};
ghost use Rattle.rows.specs.PlanRows.{plan_rows};
ghost use Rattle.router.specs.Graphs.{graph_of};
ghost use Rattle.replanning.specs.Persons.{all_replanned};
ghost use Rattle.iterations.specs.{Acts.chosen_numbers, Days.followed_plans, Days.with_own_score, Days.scored, Days.basis_after};
ghost use Rattle.iterations.specs.{Runs.CanRun, Scored.AreObserved, Views.run_rows};

use crate::run::RunInput;
use plan_memory::Memory;
use replanning::{Replanning, replan};
use router::{Adjacency, copied_legs};
use rows::{Legs, Plan};
use std::alloc::{AllocError, Global};
use std::thread::Threads;
use travel_times::{LinkTimes, Observations};

fn copied_plan(alloc: Global, plan: &Plan) -> Result<Plan, AllocError>
    ensures { IfOk result (λ copy. plan_rows copy ≡ plan_rows plan.now) }
{
    let acts = plan.acts.try_clone()?;
    let legs = copied_legs(alloc, &plan.legs.rows)?;
    Ok(Plan {
        acts,
        legs: Legs { rows: legs },
    })
}

/// Copies of the plans that the persons follow.
pub fn followed_plans(alloc: Global, memories: &[Memory]) -> Result<Vec<Plan>, AllocError>
    ensures { IfOk result (λ plans. map plan_rows plans.items ≡ followed_plans memories.now) }
{
    let mut plans = Vec::new(alloc);
    for memory in memories {
        plans.push(copied_plan(alloc, memory.chosen_plan())?)?;
    }
    Ok(plans)
}

/// The number of each person's chosen plan.
pub fn chosen_numbers(alloc: Global, memories: &[Memory]) -> Result<Vec<u32>, AllocError>
    ensures { IfOk result (λ numbers. numbers.items ≡ chosen_numbers memories.now) }
{
    let mut numbers = Vec::new(alloc);
    for memory in memories {
        numbers.push(memory.chosen())?;
    }
    Ok(numbers)
}

/// The memory with a score for its chosen plan, where there is one.
fn with_own_score(memory: Memory, score: Option<i64>) -> Memory
    ensures { result ≡ with_own_score memory score }
{
    let Some(score) = score else {
        return memory;
    };
    let mut memory = memory;
    memory.set_score(score);
    memory
}

/// The score at a place.
fn score_at(scores: &[i64], place: usize) -> Option<i64>
    ensures { result ≡ slice_get scores.now place }
{
    scores.get(place).copied()
}

/// The memories with the scores of their persons, by the persons' numbers.
#[tactic(auto, unfolding(crate::specs::Days::scored))]
pub fn scored(
    alloc: Global,
    memories: Vec<Memory>,
    scores: &[i64],
) -> Result<Vec<Memory>, AllocError>
    ensures { IfOk result (λ after. after.items ≡ scored memories.items scores.now) }
{
    let mut after = Vec::new(alloc);
    for memory in memories {
        let score = score_at(scores, after.len());
        after.push(with_own_score(memory, score))?;
    }
    Ok(after)
}

/// What persons make of their memories before an iteration, by what is known of travel times from the day before. That is let go as soon as
/// the times are made of it.
pub fn replanned<R: Threads + Sync, G>(
    rt: &R,
    alloc: Global,
    run: &RunInput<G>,
    adjacency: &Adjacency,
    iteration: u32,
    known: Observations,
    memories: Vec<Memory>,
) -> Result<Vec<Memory>, AllocError>
    requires can { CanRun (run_rows run.now) memories.items }
    requires network { adjacency.now ≡ graph_of run.now.town.now.network }
    requires known { (events : List Event) × AreObserved (length run.now.town.now.network.links) events known }
    ensures { IfOk result (λ new. (events : List Event) → AreObserved (length run.now.town.now.network.links) events known
        → new.items ≡ all_replanned (basis_after (run_rows run.now) iteration events) memories.items) }
{
    let times = LinkTimes::seen(alloc, &run.town.network, &known)?;
    drop(known);
    let replanning = Replanning {
        adjacency,
        times: &times,
        learning: run.learning,
        seed: run.town.seed,
        end_second: run.town.settings.end_second,
        iteration,
    };
    let new = replan(rt, alloc, &replanning, memories)?;
    Ok(new)
}
