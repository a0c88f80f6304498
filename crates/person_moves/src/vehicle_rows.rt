//! What a move does to the rows of vehicles, in place.

ghost use Rattle.std.specs.Prelude.{◌≡◌, ◌++◌, ◌∷◌, [], length, ◌<◌, OnOk, IfSome};
ghost use Rattle.traffic.specs.Lists.{without, with_first};
ghost use Rattle.traffic.specs.{Moves.at_second, Moves.rows_after, Rows.rank, Rows.on, declared.stage.Stage.TheVariants.Buffer};
ghost use Rattle.person_moves.specs.Places.{place_from};

use std::alloc::AllocError;
use traffic::{Move, Row, Stage};

/// The number of a stage.
fn rank(stage: Stage) -> u8
    ensures { result ≡ rank stage }
{
    match stage {
        Stage::Queue => 0,
        Stage::Buffer => 1,
        Stage::Wait => 2,
        Stage::Bay => 3,
    }
}

/// Whether a row stands on this link at this stage.
pub fn is_on(link: u32, stage: Stage, row: &Row) -> bool
    ensures { result ≡ on link stage row.now }
{
    rank(row.stage) == rank(stage) && row.link == link
}

/// The place of the `k`-th row on the link at the stage, from 0.
#[tactic(auto, unfolding(crate::specs::Places::place_from))]
fn place_on(link: u32, stage: Stage, k: usize, rows: &[Row]) -> Option<usize>
    ensures place { result ≡ place_from (on link stage) k 0 rows.now }
    ensures within { IfSome result (λ place. place < length rows.now) }
{
    let mut left = k;
    for (place, row) in rows.iter().enumerate() {
        if is_on(link, stage, row) {
            if left == 0 {
                return Some(place);
            }
            left -= 1;
        }
    }
    None
}

/// Takes the `k`-th row on the link at the stage out, where there is one.
fn take_out(link: u32, stage: Stage, k: usize, rows: &mut Vec<Row>)
    ensures { rows.new.items ≡ without (on link stage) k rows.old.items }
{
    if let Some(place) = place_on(link, stage, k, rows) {
        rows.remove(place);
    }
}

/// Gives the front of the buffer of the link this second.
fn mark_front(link: u32, second: u32, rows: &mut [Row])
    ensures { rows.new ≡ with_first (on link Buffer) (at_second second) rows.old }
{
    if let Some(place) = place_on(link, Stage::Buffer, 0, rows) {
        rows[place].second = second;
    }
}

/// Does a move to the rows.
pub(crate) fn move_rows(step: Move, rows: &mut Vec<Row>) -> Result<(), AllocError>
    ensures { OnOk result (rows.new.items ≡ rows_after step rows.old.items) }
{
    match step {
        Move::Transfer {
            link,
            stage,
            place,
            was: _was,
            now,
        } => {
            take_out(link, stage, place, rows);
            rows.push(now)?;
        }
        Move::Remove {
            link,
            stage,
            place,
            was: _was,
        } => take_out(link, stage, place, rows),
        Move::Enter { now } => rows.push(now)?,
        Move::SetFrontSince { link, second } => mark_front(link, second, rows),
        Move::Credit { .. } => {}
        Move::LeaveHole { .. } => {}
        Move::Report { says: _says } => {}
    }
    Ok(())
}
