ghost use Rattle.std.specs.Prelude.{◌≤◌};
ghost use Rattle.learning.specs.declared.TheConstants.{LAST_ITERATION};
ghost use Rattle.learning.specs.Ranges as learning_ranges;
ghost use Rattle.rows.specs.Settings.{AreInRange};

use crate::costs::Scoring;
use learning::Learning;
use rows::TrafficSettings;

/// What the settings say of a run and of each of its days, each value in its range.
#[derive(Clone, Copy, Debug, PartialEq, Eq)]
pub struct Settings {
    /// Where all draws begin.
    pub seed: u64,
    /// The number of the last iteration; the first one has the number 0.
    pub last_iteration: u32,
    /// What the days of traffic are made by.
    pub traffic: TrafficSettings,
    /// What persons replan by between two days.
    pub learning: Learning,
    pub ghost in_range: { AreInRange traffic },
    pub ghost learning_in_range: { learning_ranges.AreInRange learning },
    pub ghost few_iterations: { last_iteration ≤ LAST_ITERATION },
}

/// What settings.json says: of the days of a run, and of their scores.
#[derive(Drop)]
pub struct SettingsFile {
    pub settings: Settings,
    pub scoring: Scoring,
}
