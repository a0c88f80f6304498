//! In which of the partitions of a town each person begins the day.

ghost use Rattle.std.specs.Prelude.{◌≡◌, IfOk};
ghost use Rattle.partition.specs.{Homes.home_of, Homes.homes_of, Owned.owner_in};
ghost use Rattle.rows.specs.PlanRows.{plan_rows};
ghost use Rattle.town.specs.Views.{setup};

use partition::{Owner, owner_of_link};
use rows::{Plan, act_in};
use std::alloc::{AllocError, Global};
use town::DayInput;

/// The partition that has the link of a plan's first activity.
fn home_of(day: &DayInput, owner: &Owner, plan: &Plan) -> u32
    ensures { result ≡ home_of (setup day.now) (owner_in owner.now.of_node) (plan_rows plan.now) }
{
    let first = act_in(plan, 0);
    owner_of_link(day, owner, first.link)
}

/// That of each person's chosen plan, by the persons' numbers.
///
/// # Errors
///
/// `AllocError`: there is no memory for them.
#[tactic(auto, unfolding(town::specs::Setups::setup_of))]
pub(crate) fn homes_of(alloc: Global, day: &DayInput, owner: &Owner) -> Result<Vec<u32>, AllocError>
    ensures { IfOk result (λ homes. homes.items ≡ homes_of (setup day.now) (owner_in owner.now.of_node)) }
{
    let mut homes = Vec::new(alloc);
    for plan in day.chosen {
        homes.push(home_of(day, owner, plan))?;
    }
    Ok(homes)
}
