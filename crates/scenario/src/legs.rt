ghost use Rattle.std.specs.Prelude.{◌≡◌, ℕ, ◌<◌, ◌+◌, ◌*◌, ◌^◌, List, length, map, drop, get_or, All};
ghost use Rattle.rows.specs.PlanRows.{plan_rows, all_plan_rows};
ghost use Rattle.rows.specs.declared.schedule.{RouteRow.RouteRow, StopRow.StopRow};
ghost use Rattle.rows.specs.declared.plan.Leg.TheVariants as leg;
ghost use Rattle.scenario.specs.Legs.{Numbers, number_at, settled, leg_reason, legs_fault, plan_fault, plans_fault, all_plans_fault};
ghost use Rattle.scenario.specs.LegChecks.{leg_checks_of, AreThere};

use crate::numbering::{Numbering, number_at};
use crate::schedules::Schedule;
use edge_files::{Reason, RowFault};
use events::Route;
use rows::{Act, Leg, Plan, PlanList};
use town::{first_link, wrong_ends, wrong_stops};

/// The reason against a car route between an activity and one on this link. The route is filled where there is one.
#[tactic(auto, unfolding(crate::specs::Legs::leg_reason))]
fn car_reason(here: Act, there: u32, route: &Route) -> Option<Reason>
    ensures { (numbers : Numbers) (stops : List StopRow) (routes : List RouteRow)
        → result ≡ leg_reason (settled numbers stops routes) here there (leg.Car route.now) }
{
    if route.is_empty() {
        return Some(Reason::NoRoute);
    }
    if wrong_ends(here.link, there, &route.rows) {
        return Some(Reason::EndWrong);
    }
    None
}

/// The least reason against a transit leg between an activity and one on this link.
#[tactic(auto, unfolding(crate::specs::Legs::leg_reason))]
fn transit_reason(
    numbering: &Numbering,
    schedule: &Schedule,
    here: Act,
    there: u32,
    line: u32,
    access: u32,
    egress: u32,
) -> Option<Reason>
    requires { AreThere (length schedule.now.routes.lines) (leg_checks_of numbering.now schedule.now) }
    ensures { result ≡ leg_reason (leg_checks_of numbering.now schedule.now) here there (leg.Transit line access egress) }
{
    let Some(line) = number_at(&numbering.lines, line) else {
        return Some(Reason::Unknown);
    };
    let Some(access) = number_at(&numbering.stops, access) else {
        return Some(Reason::Unknown);
    };
    let Some(egress) = number_at(&numbering.stops, egress) else {
        return Some(Reason::Unknown);
    };
    let stops = &schedule.stops.rows.rows;
    let routes = &schedule.routes.rows.rows;
    if wrong_stops(stops, routes, here.link, there, line, access, egress) {
        return Some(Reason::StopsWrong);
    }
    None
}

/// The least reason against a leg between an activity and one on this link.
#[tactic(auto, unfolding(crate::specs::Legs::leg_reason))]
fn leg_reason(
    numbering: &Numbering,
    schedule: &Schedule,
    here: Act,
    there: u32,
    leg: &Leg,
) -> Option<Reason>
    requires { AreThere (length schedule.now.routes.lines) (leg_checks_of numbering.now schedule.now) }
    ensures { result ≡ leg_reason (leg_checks_of numbering.now schedule.now) here there leg.now }
{
    match leg {
        Leg::Car { route } => car_reason(here, there, route),
        Leg::Teleport { .. } => None,
        Leg::Transit {
            line,
            access,
            egress,
        } => { transit_reason(numbering, schedule, here, there, *line, *access, *egress) }
    }
}

/// The first fault of the legs of a plan, which stand in every second row from this one on.
#[tactic(auto, unfolding(crate::specs::Legs::legs_fault))]
fn legs_fault(
    numbering: &Numbering,
    schedule: &Schedule,
    row: u32,
    acts: &[Act],
    legs: &[Leg],
) -> Option<RowFault>
    requires there { AreThere (length schedule.now.routes.lines) (leg_checks_of numbering.now schedule.now) }
    requires early { row + 2 * length legs.now < 2 ^ 31 }
    ensures { result ≡ legs_fault (leg_checks_of numbering.now schedule.now) row acts.now legs.now }
{
    let [leg, later @ ..] = legs else {
        return None;
    };
    let [here, rest @ ..] = acts else {
        return None;
    };
    let there = first_link(rest);
    if let Some(reason) = leg_reason(numbering, schedule, *here, there, leg) {
        return Some(RowFault { row, reason });
    }
    legs_fault(numbering, schedule, row + 2, rest, later)
}

/// The first fault of the legs of a plan that begins in a row.
#[tactic(auto, unfolding(crate::specs::Legs::plan_fault))]
fn plan_fault(numbering: &Numbering, schedule: &Schedule, row: u32, plan: &Plan) -> Option<RowFault>
    requires there { AreThere (length schedule.now.routes.lines) (leg_checks_of numbering.now schedule.now) }
    requires early { row < 2 ^ 30 }
    ensures { result ≡ plan_fault (leg_checks_of numbering.now schedule.now) row (plan_rows plan.now) }
{
    let (acts, legs) = (&plan.acts.rows, &plan.legs.rows);
    legs_fault(numbering, schedule, row + 1, acts, legs)
}

/// The rows but for the first ones.
fn behind(rows: &[u32], count: usize) -> &[u32]
    ensures { result.now ≡ drop count rows.now }
{
    if count <= rows.len() {
        return rows.split_at(count).1;
    }
    &[]
}

/// The first row.
fn first_row(rows: &[u32]) -> u32
    requires { All (λ row. row < 2 ^ 30) rows.now }
    ensures first { result ≡ get_or rows.now 0 0 }
    ensures early { result < 2 ^ 30 }
{
    match rows {
        [row, ..] => *row,
        [] => 0,
    }
}

/// The first fault of the legs of plans, with the rows in which the plans begin.
fn plans_fault(
    numbering: &Numbering,
    schedule: &Schedule,
    rows: &[u32],
    plans: &[Plan],
) -> Option<RowFault>
    requires there { AreThere (length schedule.now.routes.lines) (leg_checks_of numbering.now schedule.now) }
    requires early { All (λ row. row < 2 ^ 30) rows.now }
    ensures { result ≡ plans_fault (leg_checks_of numbering.now schedule.now) rows.now (map plan_rows plans.now) }
{
    let mut rest = rows;
    for plan in plans {
        let fault = plan_fault(numbering, schedule, first_row(rest), plan);
        if fault.is_some() {
            return fault;
        }
        rest = behind(rest, 1);
    }
    None
}

/// The same of the plans of a person.
fn own_fault(
    numbering: &Numbering,
    schedule: &Schedule,
    rows: &[u32],
    own: &PlanList,
) -> Option<RowFault>
    requires there { AreThere (length schedule.now.routes.lines) (leg_checks_of numbering.now schedule.now) }
    requires early { All (λ row. row < 2 ^ 30) rows.now }
    ensures { result ≡ plans_fault (leg_checks_of numbering.now schedule.now) rows.now (map plan_rows own.now) }
{
    plans_fault(numbering, schedule, rows, &own.rows)
}

/// How many plans a person has.
fn count_of(own: &PlanList) -> usize
    ensures { result ≡ length own.now }
{
    own.rows.len()
}

/// The first fault of the legs of all persons' plans, with the rows in which the plans begin.
pub fn all_plans_fault(
    numbering: &Numbering,
    schedule: &Schedule,
    rows: &[u32],
    plans: &[PlanList],
) -> Option<RowFault>
    requires there { AreThere (length schedule.now.routes.lines) (leg_checks_of numbering.now schedule.now) }
    requires early { All (λ row. row < 2 ^ 30) rows.now }
    ensures { result ≡ all_plans_fault (leg_checks_of numbering.now schedule.now) rows.now (all_plan_rows plans.now) }
{
    let mut rest = rows;
    for own in plans {
        let fault = own_fault(numbering, schedule, rest, own);
        if fault.is_some() {
            return fault;
        }
        rest = behind(rest, count_of(own));
    }
    None
}
