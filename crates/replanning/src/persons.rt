//! One person's replanning.

ghost use Rattle.std.specs.Prelude.{◌≡◌, ◌<◌, ◌≤◌, length, true, IfOk};
ghost use Rattle.draws.specs.Words.{word};
ghost use Rattle.learning.specs.Strategies.{strategy_of};
ghost use Rattle.plan_memory.specs.Memories.{reduced, chosen_plan, with_choice, with_plan};
ghost use Rattle.plan_memory.specs.declared.TheConstants.{MAX_HELD};
ghost use Rattle.rows.specs.PlanRows.{plan_rows};
ghost use Rattle.replanning.specs.{Acts.mutated_plan, Legs.rerouted_plan, Persons.by_strategy, Persons.words_of, Persons.replanned};
ghost use Rattle.replanning.specs.{Persons.is_on, Views.basis_of, Views.IsReplanning};
ghost use Rattle.travel_times.specs.Times.{arrivals};

use crate::acts::mutate_times;
use crate::plans::reroute;
use crate::replanning::Replanning;
use draws::Draws;
use learning::{Strategy, strategy_of};
use plan_memory::{Choice, Memory};
use std::alloc::{AllocError, Global};

/// The memory with another choice among its plans.
fn with_choice(memory: Memory, how: Choice, replanning: &Replanning, words: &Draws) -> Memory
    requires { 1 ≤ replanning.now.learning.logit_unit }
    ensures { result ≡ with_choice how replanning.now.learning.logit_unit (word words.now 1) memory }
{
    let mut memory = memory;
    memory.choose(how, replanning.learning.logit_unit, words.word(1));
    memory
}

/// The memory with a copy of its chosen plan that has new routes.
fn with_new_routes(
    alloc: Global,
    memory: Memory,
    replanning: &Replanning,
) -> Result<Memory, AllocError>
    requires basis { IsReplanning replanning.now }
    requires on { is_on (length replanning.now.adjacency.now.ends) memory ≡ true }
    requires room { length memory.plans < MAX_HELD }
    ensures { IfOk result (λ new. new ≡ with_plan memory
        (rerouted_plan replanning.now.adjacency.now (arrivals replanning.now.times.now) (chosen_plan memory))) }
{
    let mut memory = memory;
    let _ = memory.len();
    let plan = reroute(
        alloc,
        replanning.adjacency,
        replanning.times,
        memory.chosen_plan(),
    )?;
    memory.add(plan)?;
    Ok(memory)
}

/// The memory with a copy of its chosen plan whose activities end at other seconds.
fn with_new_times(
    alloc: Global,
    memory: Memory,
    replanning: &Replanning,
    words: &Draws,
) -> Result<Memory, AllocError>
    requires basis { IsReplanning replanning.now }
    requires room { length memory.plans < MAX_HELD }
    ensures { IfOk result (λ new. new ≡ with_plan memory (mutated_plan replanning.now.learning.mutation_range
        replanning.now.end_second words.now (chosen_plan memory))) }
{
    let mut memory = memory;
    let plan = mutate_times(
        alloc,
        memory.chosen_plan(),
        replanning.learning.mutation_range,
        replanning.end_second,
        words,
    )?;
    memory.add(plan)?;
    Ok(memory)
}

/// The memory by a strategy.
#[tactic(auto, unfolding(crate::specs::Persons::by_strategy))]
fn by_strategy(
    alloc: Global,
    memory: Memory,
    strategy: Strategy,
    replanning: &Replanning,
    words: &Draws,
) -> Result<Memory, AllocError>
    requires basis { IsReplanning replanning.now }
    requires on { is_on (length replanning.now.adjacency.now.ends) memory ≡ true }
    requires room { length memory.plans < MAX_HELD }
    ensures { IfOk result (λ new. new ≡ by_strategy (basis_of replanning.now) words.now strategy memory) }
{
    match strategy {
        Strategy::KeepLastSelected => Ok(memory),
        Strategy::BestScore => Ok(with_choice(memory, Choice::Best, replanning, words)),
        Strategy::SelectRandom => Ok(with_choice(memory, Choice::Random, replanning, words)),
        Strategy::SelectLogit => Ok(with_choice(memory, Choice::Logit, replanning, words)),
        Strategy::ReRoute => {
            let memory = with_new_routes(alloc, memory, replanning)?;
            Ok(memory)
        }
        Strategy::TimeMutation => {
            let memory = with_new_times(alloc, memory, replanning, words)?;
            Ok(memory)
        }
    }
}

/// What a person makes of his memory before an iteration: while he has more plans than he keeps, the worst one is dropped; and then he
/// does as the strategy says that his first word picks.
#[tactic(auto, unfolding(crate::specs::Persons::replanned))]
pub fn replan_person(
    alloc: Global,
    replanning: &Replanning,
    person: u32,
    memory: Memory,
) -> Result<Memory, AllocError>
    requires basis { IsReplanning replanning.now }
    requires on { is_on (length replanning.now.adjacency.now.ends) memory ≡ true }
    ensures { IfOk result (λ new. new ≡ replanned (basis_of replanning.now) person memory) }
{
    let mut memory = memory;
    let _ = memory.len();
    memory.drop_worst(replanning.learning.memory_size);
    let words = Draws::of_person(replanning.seed, replanning.iteration, person);
    let strategy = strategy_of(&replanning.learning, replanning.iteration, words.word(0));
    let memory = by_strategy(alloc, memory, strategy, replanning, &words)?;
    Ok(memory)
}
