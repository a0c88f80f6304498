//! The laws of soundness: in every second of a day each person and each vehicle fits the plans and the
//! timetable that it comes from, and whoever alights is where his next activity is. Each is the contract
//! of a call that does nothing.
#![tactic(auto)]

ghost use Rattle.std.specs.Prelude.{ℕ, ◌<◌, ◌≤◌, List, length};
ghost use Rattle.events.specs.declared.event.{Phase.Phase, VehicleId.VehicleId};
ghost use Rattle.traffic.specs.{Day.second, Day.through, Day.world_start, Day.world_at, Rows.World, Rows.at, Rows.person_of, Setup.Setup};
ghost use Rattle.traffic.specs.{Worlds.OnePlace, Worlds.Sound, Worlds.rows_of, declared.stage.Stage.Stage};
ghost use Rattle.law_sound_setups.specs.{Alighting.AlightAll, Consistent.IsConsistentSetup, Setups.IsSoundSetup};

/// Where the plans and the departures of a setup are sound, a day begins sound, a second keeps sound a
/// world in which each person is in one place, and so every second of the day is sound, and between its
/// phases it is, too.
pub fn days_stay_sound()
    ensures start { (S : Setup) → IsSoundSetup S → Sound S (world_start S) }
    ensures kept { (S : Setup) (t : ℕ) (W : World) → IsSoundSetup S → OnePlace S W → Sound S W
        → Sound S (second S t W) }
    ensures always { (S : Setup) (t : ℕ) → IsSoundSetup S → Sound S (world_at S t) }
    ensures between { (S : Setup) (t : ℕ) (ps : List Phase) → IsSoundSetup S
        → Sound S (through S t ps (world_at S t)) }
{}

/// Where the plans and the calls of a setup are on the links that they name, in a sound world in which
/// each person is in one place whoever would alight from a row on a link has his next activity there.
pub fn riders_alight_at_their_activities()
    ensures { (S : Setup) (i l : ℕ) (s : Stage) (W : World) → IsConsistentSetup S → OnePlace S W → Sound S W
        → i < length S.persons → AlightAll S l i (person_of i W).element (at l s W) }
{}

/// In a sound setup no vehicle stands in two rows, in every second.
pub fn vehicles_stand_once()
    ensures { (S : Setup) (t : ℕ) (v : VehicleId) → IsSoundSetup S → length (rows_of v (world_at S t).rows) ≤ 1 }
{}
