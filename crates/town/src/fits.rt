ghost use Rattle.std.specs.Prelude.{◌≡◌, ◌<◌, ◌≤◌, ◌+◌, length, drop, true, nat_lt};
ghost use Rattle.std.specs.List.{list_any, list_all};
ghost use Rattle.rows.specs.PlanRows.{plan_rows};
ghost use Rattle.town.specs.Fits.{is_act_in, is_car_leg, is_transit_leg, leg_fits, first_link, legs_fit, fits};
ghost use Rattle.town.specs.Views.{rows_of};

use crate::legs::{is_joined, wrong_ends, wrong_stops};
use crate::town::Town;
use rows::{Act, Leg, Plan};

fn is_act_in(town: &Town, act: Act) -> bool
    ensures { result ≡ is_act_in (rows_of town.now) act }
{
    act.kind < town.book.kinds.len() && (act.link as usize) < town.network.links.len()
}

/// Whether these are links among so many.
fn are_links(count: usize, route: &[u32]) -> bool
    ensures { result ≡ list_all (λ l. nat_lt l count) route.now }
{
    route.iter().all(|&link| (link as usize) < count)
}

/// Whether the links of a route are in the town and joined.
#[tactic(auto, unfolding(crate::specs::Fits::is_car_leg))]
fn is_car_leg(town: &Town, route: &[u32]) -> bool
    ensures { result ≡ is_car_leg (rows_of town.now) route.now }
{
    are_links(town.network.links.len(), route) && is_joined(&town.network.links.rows, route)
}

/// Whether the line and the stops of a transit leg are in the town.
fn is_transit_leg(town: &Town, line: u32, access: u32, egress: u32) -> bool
    ensures { result ≡ is_transit_leg (rows_of town.now) line access egress }
{
    line < town.book.lines.len()
        && (access as usize) < town.stops.rows.len()
        && (egress as usize) < town.stops.rows.len()
}

/// Whether a leg fits between activities on these two links.
#[tactic(auto, unfolding(crate::specs::Fits::leg_fits))]
fn leg_fits(town: &Town, here: u32, there: u32, leg: &Leg) -> bool
    ensures { result ≡ leg_fits (rows_of town.now) here there leg.now }
{
    match leg {
        Leg::Car { route } => {
            !route.is_empty()
                && is_car_leg(town, &route.rows)
                && !wrong_ends(here, there, &route.rows)
        }
        Leg::Teleport { .. } => true,
        Leg::Transit {
            line,
            access,
            egress,
        } => {
            is_transit_leg(town, *line, *access, *egress)
                && !wrong_stops(
                    &town.stops.rows.rows,
                    &town.routes.rows.rows,
                    here,
                    there,
                    *line,
                    *access,
                    *egress,
                )
        }
    }
}

fn are_acts_in(town: &Town, acts: &[Act]) -> bool
    ensures { result ≡ list_all (is_act_in (rows_of town.now)) acts.now }
{
    acts.iter().all(|act| is_act_in(town, *act))
}

/// The link of the first activity.
pub fn first_link(acts: &[Act]) -> u32
    ensures { result ≡ first_link acts.now }
{
    match acts {
        [act, ..] => act.link,
        [] => 0,
    }
}

/// Whether each leg fits between the activity before it and the one after it.
#[tactic(auto, unfolding(crate::specs::Fits::legs_fit))]
fn legs_fit(town: &Town, acts: &[Act], legs: &[Leg]) -> bool
    ensures { result ≡ legs_fit (rows_of town.now) acts.now legs.now }
{
    let mut rest = acts;
    for leg in legs {
        let [here, after @ ..] = rest else {
            return false;
        };
        if !leg_fits(town, here.link, first_link(after), leg) {
            return false;
        }
        rest = after;
    }
    true
}

/// Whether the plan fits the town: its numbers are in the town, its car routes have links, and each leg goes from the activity
/// before it to the one after it.
#[tactic(auto, unfolding(crate::specs::Fits::fits))]
pub fn plan_fits(town: &Town, plan: &Plan) -> bool
    ensures { result ≡ fits (rows_of town.now) (plan_rows plan.now) }
{
    are_acts_in(town, &plan.acts.rows) && legs_fit(town, &plan.acts.rows, &plan.legs.rows)
}
