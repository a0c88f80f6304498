ghost use Rattle.std.specs.Prelude.{◌≡◌, map, IfOk};
ghost use Rattle.rows.specs.PlanRows.{plan_rows};
ghost use Rattle.day_scores.specs.Scores.{first_kind};

use rows::{Plan, act_in};
use std::alloc::{AllocError, Global};

fn first_kind(plan: &Plan) -> u32
    ensures { result ≡ first_kind (plan_rows plan.now) }
{
    act_in(plan, 0).kind
}

/// The kind of the first activity of each plan.
pub fn first_kinds(alloc: Global, plans: &[Plan]) -> Result<Vec<u32>, AllocError>
    ensures { IfOk result (λ kinds. kinds.items ≡ map first_kind (map plan_rows plans.now)) }
{
    let mut kinds = Vec::new(alloc);
    for plan in plans {
        kinds.push(first_kind(plan))?;
    }
    Ok(kinds)
}
