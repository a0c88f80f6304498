//! The lines of stops.

ghost use Rattle.std.specs.Prelude.{◌≡◌, length, OnOk};
ghost use Rattle.town.specs.Views.{setup};
ghost use Rattle.part_lines.specs.Coming.{CanJoin, CanAllJoin, with_one, joined_lines};

use crate::coming::came;
use riders::Waiting;
use std::alloc::AllocError;
use town::DayInput;
use traffic::{Person, Waiter};

/// Somebody comes to the line of the stop, if he comes.
fn join_line(waiter: Option<Waiter>, lines: &mut [Waiting]) -> Result<(), AllocError>
    requires { CanJoin waiter lines.old }
    ensures { OnOk result (lines.new ≡ with_one waiter lines.old) }
{
    let Some(waiter) = waiter else {
        return Ok(());
    };
    lines[waiter.stop as usize].come(waiter)?;
    Ok(())
}

/// Of the persons of these numbers those who wait since this second come to the lines of their stops, in this order.
///
/// # Errors
///
/// `AllocError`: there is no memory for one more in a line. The lines are then of no use.
#[tactic(auto, unfolding(crate::specs::Coming::joined_lines, crate::specs::Coming::CanAllJoin))]
pub fn join_lines(
    day: &DayInput,
    second: u32,
    numbers: &[u32],
    persons: &[Person],
    lines: &mut [Waiting],
) -> Result<(), AllocError>
    requires plans { length persons.now ≡ length day.now.chosen.now }
    requires can { CanAllJoin (setup day.now) second persons.now numbers.now lines.old }
    ensures { OnOk result (lines.new ≡ joined_lines (setup day.now) second persons.now numbers.now lines.old) }
{
    let mut rest = numbers;
    while let [number, later @ ..] = rest {
        let waiter = came(day, second, *number, persons[*number as usize]);
        join_line(waiter, lines)?;
        rest = later;
    }
    Ok(())
}
