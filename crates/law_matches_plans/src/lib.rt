//! Laws of days in towns, where each chosen plan fits the town: in every second each person and each
//! vehicle fits the plans and the timetable, and what is told of a person follows his plan and can be scored.
//! Each is the contract of a call that does nothing, said of a town's rows and of a `Town`.
#![tactic(auto)]

mod scores;
mod trips;

ghost use Rattle.std.specs.Prelude.{◌≡◌, ◌<◌, ℕ, true, List, length, All};
ghost use Rattle.rows.specs.PlanRows.{PlanRows};
ghost use Rattle.town.specs.{Fits.fits, Rows.TownRows, Rows.IsTown, Setups.setup_of, Views.setup, Views.ChosenFit};
ghost use Rattle.town.specs.declared.day_input.DayInput.{DayInput};
ghost use Rattle.traffic.specs.{Day.world_at, Worlds.Sound};
ghost use Rattle.law_in_range.specs.Setups.{IsPlanIn};
ghost use Rattle.law_matches_plans.specs.{Planned.IsToldAsPlanned, Trips.IsPlanned};
ghost use Rattle.law_sound_setups.specs.{Consistent.IsConsistentSetup, Setups.IsSoundSetup};

pub use scores::{days_can_be_scored, towns_can_be_scored};
pub use trips::{events_are_in_time, events_come_in_turn, few_events, sound_plans_are_planned};

/// The setup of a day in a town is sound, and its plans and calls are on the links that they name, where
/// each chosen plan fits the town; so every second of the day is sound.
pub fn towns_are_sound()
    ensures rows { (T : TownRows) (chosen : List PlanRows) (k : ℕ) → IsTown T → All (IsPlanIn T) chosen
        → IsSoundSetup (setup_of T chosen k) }
    ensures rows_consistent { (T : TownRows) (chosen : List PlanRows) (k : ℕ) → IsTown T → All (IsPlanIn T) chosen
        → IsConsistentSetup (setup_of T chosen k) }
    ensures days_of_rows { (T : TownRows) (chosen : List PlanRows) (k t : ℕ) → IsTown T → All (IsPlanIn T) chosen
        → Sound (setup_of T chosen k) (world_at (setup_of T chosen k) t) }
    ensures setups { (day : DayInput) → ChosenFit day
        → IsSoundSetup (setup day) }
    ensures consistent { (day : DayInput) → ChosenFit day
        → IsConsistentSetup (setup day) }
    ensures days { (day : DayInput) (t : ℕ)
        → ChosenFit day
        → Sound (setup day) (world_at (setup day) t) }
{}

/// What the day of a town tells of each person follows his plan, trip after trip, in at most eight events
/// for each leg and 64 in all; for no activity of his plan ends but one that a leg comes after.
pub fn towns_are_told_as_planned()
    ensures planned { (T : TownRows) (chosen : List PlanRows) (k i : ℕ) → IsTown T → All (IsPlanIn T) chosen
        → i < length chosen → IsPlanned (setup_of T chosen k) i }
    ensures rows { (T : TownRows) (chosen : List PlanRows) (k i : ℕ) → IsTown T → All (IsPlanIn T) chosen
        → i < length chosen → IsToldAsPlanned (setup_of T chosen k) i }
    ensures towns { (day : DayInput) (i : ℕ)
        → ChosenFit day → i < length day.chosen.now
        → IsToldAsPlanned (setup day) i }
{}
