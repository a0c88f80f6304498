ghost use Rattle.std.specs.Prelude.{◌≡◌, ◌≤◌, ◌<◌, ◌∷◌, ◌++◌, [], length, true, None, Some, IfOk};
ghost use Rattle.std.specs.List.{list_all};
ghost use Rattle.limits.specs.declared.TheConstants.{MAX_LEGS};
ghost use Rattle.rows.specs.{Plan.has_end, Plan.is_leg, PlanRows.plan_rows};
ghost use Rattle.plans.specs.Values.{endless};

use rows::{Act, Acts, Leg, Legs, Plan};
use std::alloc::{AllocError, Global};

/// A plan of which rows may still come: activities with the leg behind each, and an activity that
/// has none yet.
#[derive(Drop)]
pub struct OpenPlan {
    pub acts: Vec<Act>,
    pub legs: Vec<Leg>,
    pub last: Option<Act>,
    ghost paired: { length acts.items ≡ length legs.items },
    ghost few: { length legs.items ≤ MAX_LEGS },
    ghost ends: { list_all has_end acts.items ≡ true },
    ghost sound: { list_all is_leg legs.items ≡ true },
}

/// A plan that begins with this activity.
pub fn begun(alloc: Global, act: Act) -> OpenPlan
    ensures acts { result.acts.items ≡ [] }
    ensures legs { result.legs.items ≡ [] }
    ensures last { result.last ≡ Some act }
{
    OpenPlan {
        acts: Vec::new(alloc),
        legs: Vec::new(alloc),
        last: Some(act),
    }
}

/// The plan with this activity behind its last leg.
pub fn with_act(current: OpenPlan, act: Act) -> OpenPlan
    ensures acts { result.acts.items ≡ current.acts.items }
    ensures legs { result.legs.items ≡ current.legs.items }
    ensures last { result.last ≡ Some act }
{
    let OpenPlan { acts, legs, .. } = current;
    OpenPlan {
        acts,
        legs,
        last: Some(act),
    }
}

/// The plan with a leg behind its last activity.
pub fn with_leg(current: OpenPlan, last: Act, leg: Leg) -> Result<OpenPlan, AllocError>
    requires end { has_end last ≡ true }
    requires leg { is_leg leg ≡ true }
    requires few { length current.legs.items < MAX_LEGS }
    ensures acts { IfOk result (λ o. o.acts.items ≡ current.acts.items ++ last ∷ []) }
    ensures legs { IfOk result (λ o. o.legs.items ≡ current.legs.items ++ leg ∷ []) }
    ensures last { IfOk result (λ o. o.last ≡ None) }
{
    let OpenPlan {
        mut acts,
        mut legs,
        ..
    } = current;
    acts.push(last)?;
    legs.push(leg)?;
    Ok(OpenPlan {
        acts,
        legs,
        last: None,
    })
}

/// The plan, when no further row comes behind its last activity.
#[tactic(auto, using(crate::proofs::Closing::are_acts_closed))]
pub fn closed(current: OpenPlan, last: Act) -> Result<Plan, AllocError>
    ensures { IfOk result (λ plan. plan_rows plan ≡ record {
      acts = current.acts.items ++ endless last ∷ [];
      legs = current.legs.items;
    }) }
{
    let OpenPlan { mut acts, legs, .. } = current;
    acts.push(Act {
        kind: last.kind,
        link: last.link,
        end: None,
    })?;
    Ok(Plan {
        acts: Acts { rows: acts },
        legs: Legs { rows: legs },
    })
}
