ghost use Rattle.std.specs.{List.list_all, Prelude.◌≡◌, Prelude.◌≤◌, Prelude.length, Prelude.true};
ghost use Rattle.scoring.specs.{Limits.is_mode, Limits.are_costs, declared.TheConstants.MAX_TABLES};
ghost use Rattle.settings.specs.NamedTables.{are_right};

use crate::named_tables::NamedTable;
use events::Rows;
use scoring::ModeScore;

/// What the settings say of scores besides tables, in micro-utils, each within its limits.
#[derive(Clone, Copy)]
pub struct Costs {
    pub modes: [ModeScore; 5],
    pub late_per_second: i64,
    pub stuck: i64,
    pub ghost modes_in: { list_all is_mode modes ≡ true },
    pub ghost costs_in: { are_costs late_per_second stuck ≡ true },
}

/// What a day is scored by, as settings.json says it: each table by the name of its kind.
#[derive(Drop)]
pub struct Scoring {
    /// At most 64, no two of them for one kind.
    pub tables: Rows<NamedTable>,
    /// By the modes, in their order: car, walk, bike, ride, pt.
    pub modes: [ModeScore; 5],
    /// What each second adds by which an activity begins late, in micro-utils.
    pub late_per_second: i64,
    /// What being stuck adds, in micro-utils.
    pub stuck: i64,
    pub ghost few: { length tables ≤ MAX_TABLES },
    pub ghost right: { are_right tables ≡ true },
    pub ghost modes_in: { list_all is_mode modes ≡ true },
    pub ghost costs_in: { are_costs late_per_second stuck ≡ true },
}
