//! What a person's day is worth: MATSim's scores (the MATSim book, chapter "A Closer Look at
//! Scoring"), in whole numbers.
//!
//! Worth is counted in micro-utils, time in seconds. What an activity is worth stands in a table
//! for its kind, and what a leg is worth goes by its mode. A [`Scorer`] takes the events of one
//! person, one after the other, and needs no list of them.
#![tactic(auto)]

mod days;
mod laws;
mod scorer;
mod table;
mod tables;
mod values;
mod worths;

pub use days::score_of;
pub use laws::{
    other_events_do_not_score, sums_of_scores_fit, values_follow_points, values_round_down,
    worked_scores,
};
use limits::LAST_SECOND;
pub use scorer::Scorer;
pub use table::{ModeScore, Points, Table, TableList, is_table};
pub use tables::Tables;
pub use values::value;

/// The day that is scored, in seconds: an activity that has not ended lasts until its end.
pub const SCORING_DAY: u32 = 86_400;

/// The most events of one person.
pub const MAX_EVENTS: usize = 64;

/// The most tables.
pub const MAX_TABLES: usize = 64;

/// The most points of a table.
pub const MAX_POINTS: usize = 32;

/// The last second of a point of a table.
pub const MAX_POINT_SECOND: u32 = 1_000_000;

/// The most that a point of a table, a leg's constant or being stuck is worth, or costs, in
/// micro-utils.
pub const MAX_WORTH: i64 = 1_000_000_000_000;

/// The most that a second of a leg is worth, or that a second of a leg or of lateness costs, in
/// micro-utils.
pub const MAX_PER_SECOND: i64 = 1_000_000;

/// The most that a leg is worth, or costs, in micro-utils: its constant, and a second's worth for each second of two days.
pub const MAX_LEG_WORTH: i64 = MAX_WORTH + MAX_PER_SECOND * LAST_SECOND as i64;

/// No score is above this, or below its negative, in micro-utils.
pub const MAX_SCORE: i64 = 100_000_000_000_000;
