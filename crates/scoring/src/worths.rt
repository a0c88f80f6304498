ghost use Rattle.std.specs.Prelude.{◌≡◌, ◌≤◌, Some, true, option_copied, slice_get};
ghost use Rattle.limits.specs.declared.TheConstants.{LAST_SECOND};
ghost use Rattle.scoring.specs.{Limits.is_right, Points.value, Ranges.IsWithin};
ghost use Rattle.scoring.specs.Tables.{table_of, activity_worth, place_of, leg_worth, seconds_late};
ghost use Rattle.scoring.specs.declared.TheConstants.{MAX_LEG_WORTH, MAX_WORTH};

use crate::table::{ModeScore, Table};
use crate::tables::Tables;
use crate::values::value;
use events::Mode;

// The table of a kind of activity, if there is one.
fn table_of(tables: &Tables, kind: u32) -> Option<&Table>
    ensures { option_copied result ≡ table_of tables.now.tables kind }
{
    tables
        .tables
        .as_slice()
        .iter()
        .find(|table| table.kind == kind)
}

// What so many seconds are worth by a table.
fn table_worth(table: &Table, seconds: u32) -> i64
    requires { is_right table.now ≡ true }
    ensures value { result ≡ value table.now.points seconds }
    ensures within { IsWithin MAX_WORTH result }
{
    value(table.points.as_slice(), seconds)
}

/// What an activity of a kind is worth that takes so many seconds, in micro-utils.
#[tactic(auto, unfolding(crate::specs::Tables::activity_worth))]
pub fn activity_worth(tables: &Tables, kind: u32, seconds: u32) -> i64
    ensures value { result ≡ activity_worth tables.now.tables kind seconds }
    ensures within { IsWithin MAX_WORTH result }
{
    match table_of(tables, kind) {
        Some(table) => table_worth(table, seconds),
        None => 0,
    }
}

/// How many seconds late an activity of a kind begins.
#[tactic(auto, unfolding(crate::specs::Tables::seconds_late))]
pub fn seconds_late(tables: &Tables, kind: u32, second: u32) -> u32
    ensures value { result ≡ seconds_late tables.now.tables kind second }
    ensures most { result ≤ second }
{
    match table_of(tables, kind) {
        Some(table) => match table.latest {
            Some(latest) => second.saturating_sub(latest),
            None => 0,
        },
        None => 0,
    }
}

// The score of a mode.
fn mode_score(tables: &Tables, mode: Mode) -> ModeScore
    ensures { slice_get tables.now.modes (place_of mode) ≡ Some result }
{
    let modes = &tables.modes;
    match mode {
        Mode::Car => modes[0],
        Mode::Walk => modes[1],
        Mode::Bike => modes[2],
        Mode::Ride => modes[3],
        Mode::Pt => modes[4],
    }
}

/// What a leg by a mode is worth that takes so many seconds, in micro-utils.
#[tactic(auto, unfolding(crate::specs::Tables::leg_worth))]
pub fn leg_worth(tables: &Tables, mode: Mode, seconds: u32) -> i64
    requires { seconds ≤ LAST_SECOND }
    ensures value { result ≡ leg_worth tables.now.modes mode seconds }
    ensures within { IsWithin MAX_LEG_WORTH result }
{
    let score = mode_score(tables, mode);
    score.constant + score.per_second * i64::from(seconds)
}
