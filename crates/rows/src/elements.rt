//! The elements of a plan: element `2k` is activity `k`, and `2k + 1` the leg after it.

ghost use Rattle.std.specs.Prelude.{◌≡◌, ◌+◌, get_or, None};
ghost use Rattle.rows.specs.PlanRows.{plan_rows, act_in};

use crate::plan::{Act, Acts, Plan};

/// The activity at a place, and behind the last one an empty one.
fn act_at(acts: &Acts, place: usize) -> Act
    ensures { result ≡ get_or acts.now place (record { kind = 0; link = 0; end = None }) }
{
    if place < acts.rows.len() {
        return acts.rows[place];
    }
    Act {
        kind: 0,
        link: 0,
        end: None,
    }
}

/// The activity of an element, or the one before the leg that it is; behind the last one an empty one.
pub fn act_in(plan: &Plan, element: u32) -> Act
    ensures { result ≡ act_in (plan_rows plan.now) element }
{
    act_at(&plan.acts, element as usize / 2)
}

/// The activity after it.
pub fn act_after(plan: &Plan, element: u32) -> Act
    ensures { result ≡ act_in (plan_rows plan.now) (element + 2) }
{
    act_at(&plan.acts, element as usize / 2 + 1)
}
