//! What moves do to a world, in place.

ghost use Rattle.std.specs.{List.flat_map, Prelude.◌≡◌, Prelude.◌++◌, Prelude.◌<◌, Prelude.◌^◌, Prelude.length};
ghost use Rattle.std.specs.{Prelude.OnOk};
ghost use Rattle.town.specs.Views.{setup};
ghost use Rattle.traffic.specs.Moves.{told, rows_after, persons_after, credits_after, holes_after, done, run};

use crate::link_credits::LinkCredits;
use crate::steps::step_persons;
use crate::vehicle_rows::move_rows;
use crate::world::World;
use std::alloc::{AllocError, Global};
use town::DayInput;
use traffic::{Hole, Move, Occurrence, Person};
use vehicles::push_told;

/// Does a move to the credits.
fn move_credits(step: &Move, credits: &mut LinkCredits) -> Result<(), AllocError>
    ensures { OnOk result (credits.new ≡ credits_after step.now credits.old) }
{
    if let Move::Credit { link, credit } = step {
        credits.put(*link, *credit)?;
    }
    Ok(())
}

/// Does a move to the holes.
fn move_holes(step: &Move, holes: &mut Vec<Hole>) -> Result<(), AllocError>
    ensures { OnOk result (holes.new.items ≡ holes_after step.now holes.old.items) }
{
    if let Move::LeaveHole { link, second } = step {
        holes.push(Hole {
            link: *link,
            second: *second,
        })?;
    }
    Ok(())
}

/// Appends what a move of this second tells, and does it to the persons.
fn move_persons(
    alloc: Global,
    day: &DayInput,
    second: u32,
    step: &Move,
    persons: &mut [Person],
    said: &mut Vec<Occurrence>,
) -> Result<(), AllocError>
    requires { second < 2 ^ 31 }
    ensures persons { OnOk result (persons.new ≡ persons_after (setup day.now) second (told step.now) persons.old) }
    ensures told { OnOk result (said.new.items ≡ said.old.items ++ told step.now) }
{
    let before = said.len();
    push_told(alloc, step, said)?;
    step_persons(day, second, &said[before..], persons)?;
    Ok(())
}

/// Does a move to the rows of vehicles, to the credits and to the holes.
fn move_vehicles(step: Move, world: &mut World) -> Result<(), AllocError>
    ensures { OnOk result (world.new ≡ record world.old {
      rows = rows_after step world.old.rows;
      credits = credits_after step world.old.credits;
      holes = holes_after step world.old.holes;
    }) }
{
    move_credits(&step, &mut world.credits)?;
    move_holes(&step, &mut world.holes)?;
    move_rows(step, &mut world.rows)?;
    Ok(())
}

/// Does a move of this second, and appends what it tells. After an error the world is of no use.
///
/// # Errors
///
/// `AllocError`: there is no memory for a row, a hole, the credits or an event.
pub fn do_move(
    alloc: Global,
    day: &DayInput,
    second: u32,
    step: Move,
    world: &mut World,
    said: &mut Vec<Occurrence>,
) -> Result<(), AllocError>
    requires { second < 2 ^ 31 }
    ensures world { OnOk result (world.new ≡ done (setup day.now) second step world.old) }
    ensures told { OnOk result (said.new.items ≡ said.old.items ++ told step) }
{
    move_persons(alloc, day, second, &step, &mut world.persons, said)?;
    move_vehicles(step, world)?;
    Ok(())
}

/// Does the moves of a turn, one after the other, and appends what they tell. After an error the
/// world is of no use.
///
/// # Errors
///
/// `AllocError`: there is no memory for a row, a hole or an event.
pub fn do_moves(
    alloc: Global,
    day: &DayInput,
    second: u32,
    moves: Vec<Move>,
    world: &mut World,
    said: &mut Vec<Occurrence>,
) -> Result<(), AllocError>
    requires { second < 2 ^ 31 }
    ensures world { OnOk result (world.new ≡ run (setup day.now) second moves.items world.old) }
    ensures told { OnOk result (said.new.items ≡ said.old.items ++ flat_map told moves.items) }
{
    for step in moves {
        do_move(alloc, day, second, step, world, said)?;
    }
    Ok(())
}
