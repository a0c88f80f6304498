ghost use Rattle.std.specs.Prelude.{◌≡◌, map, IfOk};
ghost use Rattle.rows.specs.PlanRows.{plan_rows, all_plan_rows};
ghost use Rattle.scenario.specs.{LegChecks.numbers_of, Legs.leg_in_town, Legs.plan_in_town};

use crate::numbering::{Numbering, in_town};
use rows::{Leg, Legs, Plan, PlanList, PlanLists};
use std::alloc::{AllocError, Global};

/// A leg with the town's numbers of its line and its stops.
fn leg_in_town(numbering: &Numbering, leg: Leg) -> Leg
    ensures { result ≡ leg_in_town (numbers_of numbering.now) leg }
{
    match leg {
        Leg::Transit {
            line,
            access,
            egress,
        } => Leg::Transit {
            line: in_town(&numbering.lines, line),
            access: in_town(&numbering.stops, access),
            egress: in_town(&numbering.stops, egress),
        },
        Leg::Teleport { mode, seconds } => Leg::Teleport { mode, seconds },
        Leg::Car { route } => Leg::Car { route },
    }
}

/// The same for the legs of a plan.
fn legs_in_town(alloc: Global, numbering: &Numbering, legs: Legs) -> Result<Legs, AllocError>
    ensures { IfOk result (λ r. r ≡ map (leg_in_town (numbers_of numbering.now)) legs) }
{
    let mut rows = Vec::new(alloc);
    for leg in legs.rows {
        rows.push(leg_in_town(numbering, leg))?;
    }
    Ok(Legs { rows })
}

/// The same for a plan.
fn plan_in_town(alloc: Global, numbering: &Numbering, plan: Plan) -> Result<Plan, AllocError>
    ensures { IfOk result (λ p. plan_rows p ≡ plan_in_town (numbers_of numbering.now) (plan_rows plan)) }
{
    let Plan { acts, legs } = plan;
    let legs = legs_in_town(alloc, numbering, legs)?;
    Ok(Plan { acts, legs })
}

/// The same for the plans of a person.
fn own_in_town(alloc: Global, numbering: &Numbering, own: PlanList) -> Result<PlanList, AllocError>
    ensures { IfOk result (λ r. map plan_rows r ≡ map (plan_in_town (numbers_of numbering.now)) (map plan_rows own)) }
{
    let mut rows = Vec::new(alloc);
    for plan in own.rows {
        rows.push(plan_in_town(alloc, numbering, plan)?)?;
    }
    Ok(PlanList { rows })
}

/// The same for the plans of all persons.
pub fn plans_in_town(
    alloc: Global,
    numbering: &Numbering,
    plans: PlanLists,
) -> Result<PlanLists, AllocError>
    ensures { IfOk result (λ r. all_plan_rows r ≡ map (map (plan_in_town (numbers_of numbering.now))) (all_plan_rows plans)) }
{
    let mut rows = Vec::new(alloc);
    for own in plans.rows {
        rows.push(own_in_town(alloc, numbering, own)?)?;
    }
    Ok(PlanLists { rows })
}
