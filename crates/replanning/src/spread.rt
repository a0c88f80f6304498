//! The replanning of all persons, spread over the processors.

ghost use Rattle.std.specs.Prelude.{◌≡◌, ◌+◌, ◌∷◌, ◌++◌, [], ℕ, length, map, true, OnOk, IfOk};
ghost use Rattle.std.specs.List.{enumerate_from};
ghost use Rattle.plan_memory.specs.Memories.{MemoryRows};
ghost use Rattle.replanning.specs.Persons.{replanned, all_replanned, is_on, all_are_on};
ghost use Rattle.replanning.specs.Views.{basis_of, IsReplanning};

use crate::persons::replan_person;
use crate::replanning::Replanning;
use plan_memory::Memory;
use rayon::prelude::*;
use std::alloc::{AllocError, Global};
use std::thread::Threads;

/// A person's number, and what he remembers.
#[derive(Drop)]
struct Numbered {
    person: u32,
    memory: Memory,
}

/// Adds a memory with the next number. More persons than there are numbers is want of memory.
fn push_numbered(all: &mut Vec<Numbered>, memory: Memory) -> Result<(), AllocError>
    ensures memory { OnOk result (map {B = ℕ × MemoryRows} (λ (one : Numbered). (one.person, one.memory)) all.new.items
        ≡ map {B = ℕ × MemoryRows} (λ (one : Numbered). (one.person, one.memory)) all.old.items
        ++ (length all.old.items, memory) ∷ []) }
    ensures count { OnOk result (length all.new.items ≡ length all.old.items + 1) }
{
    if all.len() > u32::MAX as usize {
        return Err(AllocError);
    }
    let person = all.len() as u32;
    all.push(Numbered { person, memory })?;
    Ok(())
}

/// The memories with the numbers of their persons.
fn with_numbers(alloc: Global, memories: Vec<Memory>) -> Result<Vec<Numbered>, AllocError>
    ensures { IfOk result (λ all. map (λ (one : Numbered). (one.person, one.memory)) all.items ≡ enumerate_from 0 memories.items) }
{
    let mut all = Vec::new(alloc);
    for memory in memories {
        push_numbered(&mut all, memory)?;
    }
    Ok(all)
}

/// What all persons make of their memories before an iteration, spread over as many threads as there are processors. The answer is that
/// of one person after the other, in the order of their numbers.
pub fn replan<R: Threads + Sync>(
    rt: &R,
    alloc: Global,
    replanning: &Replanning,
    memories: Vec<Memory>,
) -> Result<Vec<Memory>, AllocError>
    requires basis { IsReplanning replanning.now }
    requires on { all_are_on (length replanning.now.adjacency.now.ends) memories.items ≡ true }
    ensures { IfOk result (λ new. new.items ≡ all_replanned (basis_of replanning.now) memories.items) }
{
    let all = with_numbers(alloc, memories)?;
    let new: Result<Vec<Memory>, AllocError> = all
        .into_par_iter()
        .with_min_len(16)
        .map(
            |one: Numbered| -> Result<Memory, AllocError>
                requires { IsReplanning replanning.now × (is_on (length replanning.now.adjacency.now.ends) one.memory ≡ true) }
                ensures { IfOk result (λ new. new ≡ replanned (basis_of replanning.entry.now) one.person one.memory) }
            { replan_person(alloc, replanning, one.person, one.memory) },
        )
        .collect(rt, alloc)?;
    new
}
