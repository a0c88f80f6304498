//! Laws of files: where the files of a scenario have no fault, they give a town within its limits, whose persons remember one to five
//! plans each, of each of which a day of the town can be made, and settings of replanning in their ranges.
#![tactic(auto)]

ghost use Rattle.std.specs.Prelude.{◌≡◌, None, All};
ghost use Rattle.scenario.specs.{FilesToScenario.scenario_fault, FilesToScenario.scenario_rows, FilesToScenario.conflicts_in, Texts.Texts};
ghost use Rattle.law_valid_files.specs.Valid.{IsScenario, IsNamed};
ghost use Rattle.signals.specs.Signals.{AreNeverGreen};

/// Files without a fault give a scenario of which a run can be made, whatever its settings of replanning are, with a name for all that
/// events tell of.
pub fn files_give_scenarios()
    ensures scenario { (texts : Texts) → scenario_fault texts ≡ None → IsScenario (scenario_rows texts) }
    ensures named { (texts : Texts) → scenario_fault texts ≡ None → IsNamed (scenario_rows texts).town }
{}

/// The two links of a conflict in files without a fault are never green in one second, also after the end of the day.
pub fn conflicts_are_never_green()
    ensures { (texts : Texts) → scenario_fault texts ≡ None
        → All (AreNeverGreen (scenario_rows texts).town.greens) (conflicts_in texts) }
{}
