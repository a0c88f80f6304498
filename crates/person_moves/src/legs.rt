//! The legs of persons, by the elements of their plans.

ghost use Rattle.std.specs.Prelude.{◌≡◌, ◌<◌, ◌/◌};
ghost use Rattle.rows.specs.{Plan.mode_of_leg, PlanRows.plan_rows, PlanRows.leg_in};
ghost use Rattle.person_moves.specs.Legs.{nth_leg, kind_of, mode_of_kind};

use events::Mode;
use rows::{Leg, Legs, Plan};

/// A leg without its route.
#[derive(Clone, Copy)]
pub(crate) enum LegKind {
    Car,
    Teleport { mode: Mode, seconds: u32 },
    Transit { line: u32, access: u32, egress: u32 },
}

/// The leg without its route.
pub(crate) fn kind_of(leg: &Leg) -> LegKind
    ensures { result ≡ kind_of leg.now }
{
    match leg {
        Leg::Car { .. } => LegKind::Car,
        Leg::Teleport { mode, seconds } => LegKind::Teleport {
            mode: *mode,
            seconds: *seconds,
        },
        Leg::Transit {
            line,
            access,
            egress,
        } => LegKind::Transit {
            line: *line,
            access: *access,
            egress: *egress,
        },
    }
}

/// The leg at a place; behind the last one a leg by car.
fn kind_at(legs: &Legs, place: usize) -> LegKind
    ensures { result ≡ kind_of (nth_leg legs.now place) }
{
    if place < legs.rows.len() {
        return kind_of(&legs.rows[place]);
    }
    LegKind::Car
}

/// The leg of an element, or the one after the activity that it is.
pub(crate) fn kind_in(plan: &Plan, element: u32) -> LegKind
    ensures { result ≡ kind_of (leg_in (plan_rows plan.now) element) }
{
    kind_at(&plan.legs, element as usize / 2)
}

pub(crate) fn mode_of_kind(leg: LegKind) -> Mode
    ensures { result ≡ mode_of_kind leg }
{
    match leg {
        LegKind::Car => Mode::Car,
        LegKind::Teleport { mode, .. } => mode,
        LegKind::Transit { .. } => Mode::Pt,
    }
}

/// The mode of the leg of an element of a plan, or of the one after the activity that it is; that of transit is `Mode::Pt`.
pub fn mode_in(plan: &Plan, element: u32) -> Mode
    ensures { result ≡ mode_of_leg (leg_in (plan_rows plan.now) element) }
{
    mode_of_kind(kind_in(plan, element))
}
