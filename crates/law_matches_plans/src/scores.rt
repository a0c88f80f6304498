//! The events that a day tells of a person can be scored one after the other.

ghost use Rattle.std.specs.Prelude.{◌≡◌, ℕ, ◌<◌, ◌≤◌, true, List, length, map, All};
ghost use Rattle.std.specs.List.{list_all};
ghost use Rattle.limits.specs.declared.TheConstants.{LAST_SECOND, MAX_LEGS};
ghost use Rattle.events.specs.Persons.{own_events};
ghost use Rattle.rows.specs.{PlanRows.PlanRows, PlanRows.plan_rows, declared.plan.Plan.Plan};
ghost use Rattle.traffic.specs.{Day.day, Setup.Setup};
ghost use Rattle.town.specs.{Fits.fits, Rows.TownRows, Rows.IsTown, Setups.setup_of};
ghost use Rattle.law_in_range.specs.Setups.{IsPlanIn};
ghost use Rattle.law_matches_plans.specs.Trips.{IsPlanned, legs};
ghost use Rattle.scoring.specs.Taken.{AllFollow};

/// Of each person whose plan has at most eight legs, the events of a day that is over by the last second
/// follow one another as a scorer takes them: they are at most 64, an activity ends, a leg departs by a
/// mode, arrives, and an activity of a kind starts, or the person is stuck, and then nothing follows.
pub fn days_can_be_scored()
    ensures { (S : Setup) (i : ℕ) → IsPlanned S i → i < length S.persons → legs S i ≤ MAX_LEGS
        → S.settings.end_second ≤ LAST_SECOND → AllFollow (own_events i (day S)) }
{}

/// So do the events of each person of a town, where each chosen plan fits it.
pub fn towns_can_be_scored()
    ensures rows { (T : TownRows) (chosen : List PlanRows) (k i : ℕ) → IsTown T → All (IsPlanIn T) chosen
        → i < length chosen → AllFollow (own_events i (day (setup_of T chosen k))) }
    ensures plans { (T : TownRows) (chosen : List Plan) (k i : ℕ) → IsTown T
        → list_all (fits T) (map plan_rows chosen) ≡ true → i < length chosen
        → AllFollow (own_events i (day (setup_of T (map plan_rows chosen) k))) }
{}
