ghost use Rattle.std.specs.{List.list_all, Prelude.◌≡◌, Prelude.map, Prelude.true, Prelude.IfOk};
ghost use Rattle.rows.specs.PlanRows.{all_plan_rows};
ghost use Rattle.plan_memory.specs.Memories.{first_memory};
ghost use Rattle.scenario.specs.Fitting.{are_few};

use plan_memory::{Memory, MemoryList};
use rows::PlanLists;
use std::alloc::{AllocError, Global};

/// What each person remembers at first: his plans, of which he has tried none and follows the first one.
pub fn first_memories(alloc: Global, plans: PlanLists) -> Result<MemoryList, AllocError>
    requires { list_all are_few (all_plan_rows plans) ≡ true }
    ensures { IfOk result (λ memories. memories ≡ map first_memory (all_plan_rows plans)) }
{
    let mut rows = Vec::new(alloc);
    for own in plans.rows {
        rows.push(Memory::of_plans(own))?;
    }
    Ok(MemoryList { rows })
}
