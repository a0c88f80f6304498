//! What holds of the day of every iteration that the program runs.

ghost use Rattle.std.specs.Prelude.{◌≡◌, ℕ, Bool, None};
ghost use Rattle.scenario.specs.{FilesToScenario.ScenarioRows, FilesToScenario.scenario_fault, FilesToScenario.scenario_rows, Texts.Texts};
ghost use Rattle.qsim_top.specs.Laws.{day_of, IsLawful, FollowsPlans, KeepsConflicts, GoesInAnyParts, ReportsRoutes, ResumesRuns};

/// Knows the laws of the day of every iteration of every scenario, and of the days, the routes and what is kept of files without a fault.
/// Does nothing.
pub fn know_days()
    ensures lawful { (keeps : Bool) (S : ScenarioRows) (k : ℕ) → IsLawful (day_of keeps S k) }
    ensures planned { (keeps : Bool) (texts : Texts) (k : ℕ) → scenario_fault texts ≡ None
        → FollowsPlans (scenario_rows texts).town (day_of keeps (scenario_rows texts) k) }
    ensures conflicts { (keeps : Bool) (texts : Texts) (k : ℕ) → scenario_fault texts ≡ None
        → KeepsConflicts texts (day_of keeps (scenario_rows texts) k) }
    ensures parted { (keeps : Bool) (texts : Texts) (k : ℕ) → scenario_fault texts ≡ None
        → GoesInAnyParts (day_of keeps (scenario_rows texts) k) }
    ensures routed { (texts : Texts) → scenario_fault texts ≡ None → ReportsRoutes (scenario_rows texts) }
    ensures resumed { (texts : Texts) → scenario_fault texts ≡ None → ResumesRuns (scenario_rows texts) }
{}
