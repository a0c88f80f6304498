ghost use Rattle.std.specs.{List.list_all, Prelude.◌≡◌};
ghost use Rattle.scoring.specs.Points.{is_point, rise_from, are_rising, is_table};

use crate::{MAX_POINT_SECOND, MAX_POINTS, MAX_WORTH};
use limits::LAST_SECOND;
use std::marker::Model;

/// What a leg by a mode is worth, in micro-utils: a constant, and so much for each second.
#[derive(Clone, Copy, Debug, PartialEq, Eq)]
pub struct ModeScore {
    pub constant: i64,
    pub per_second: i64,
}

/// The points of a table: seconds, and what is reached there, in micro-utils.
#[derive(Drop)]
pub struct Points {
    pub rows: Vec<(u32, i64)>,
}

impl Model for Points {
    ghost use Rattle.std.specs.Prelude.{List, ℕ, ℤ};

    ghost Value = { List (ℕ × ℤ) };

    ghost view = { λ p. p.rows.items };
}

impl Points {
    /// The points, in order.
    pub fn as_slice(&self) -> &[(u32, i64)]
        ensures { result.now ≡ self.now }
    {
        self.rows.as_slice()
    }
}

/// What activities of a kind are worth, by how long they take.
#[derive(Drop)]
pub struct Table {
    /// The number of the kind of activity.
    pub kind: u32,
    pub points: Points,
    /// The last second in which an activity of the kind begins in time.
    pub latest: Option<u32>,
}

/// Whether points and the last second in which an activity begins in time are those of a table: 1 to 32
/// points, at seconds from 0 to 1,000,000 that rise, each worth at most 1,000,000,000,000
/// micro-utils, or as much below zero; and a second of at most `LAST_SECOND`.
pub fn is_table(points: &[(u32, i64)], latest: Option<u32>) -> bool
    ensures { result ≡ is_table points.now latest }
{
    let in_day = latest.is_none_or(|second| second <= LAST_SECOND);
    !points.is_empty()
        && points.len() <= MAX_POINTS
        && are_points(points)
        && are_rising(points)
        && in_day
}

// Whether each point is within the limits of a table.
fn are_points(points: &[(u32, i64)]) -> bool
    ensures { result ≡ list_all is_point points.now }
{
    points.iter().all(|point| is_point(*point))
}

fn is_point(point: (u32, i64)) -> bool
    ensures { result ≡ is_point point }
{
    point.0 <= MAX_POINT_SECOND && -MAX_WORTH <= point.1 && point.1 <= MAX_WORTH
}

// Whether each point is at a later second than the one before it.
fn are_rising(points: &[(u32, i64)]) -> bool
    ensures { result ≡ are_rising points.now }
{
    match points {
        [] => true,
        [first, later @ ..] => rise_from(first.0, later),
    }
}

// The same of points that come behind a second.
fn rise_from(second: u32, points: &[(u32, i64)]) -> bool
    ensures { result ≡ rise_from second points.now }
{
    let mut before = second;
    for point in points {
        if point.0 <= before {
            return false;
        }
        before = point.0;
    }
    true
}

/// Tables, one for each of some kinds.
#[derive(Drop)]
pub struct TableList {
    pub rows: Vec<Table>,
}

impl Model for TableList {
    ghost use Rattle.std.specs.Prelude.{List};
    ghost use Rattle.scoring.specs.declared.table.Table.{Table};

    ghost Value = { List Table };

    ghost view = { λ t. t.rows.items };
}

impl TableList {
    /// The tables, in order.
    pub fn as_slice(&self) -> &[Table]
        ensures { result.now ≡ self.now }
    {
        self.rows.as_slice()
    }
}
