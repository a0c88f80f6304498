//! A link in a second.

ghost use Rattle.std.specs.Prelude.{◌≡◌, ℕ, ◌+◌, ◌<◌, ◌≤◌, Bool, false, List, length, OnOk, IfOk};
ghost use Rattle.std.specs.List.{AllByRecursion as Each};
ghost use Rattle.limits.specs.declared.TheConstants.{LAST_SECOND};
ghost use Rattle.rows.specs.Settings.{IsDwelling};
ghost use Rattle.traffic.specs.declared.world.Waiter.{Waiter};
ghost use Rattle.queue_link.specs.Numbers.{rules_of};
ghost use Rattle.link_seconds.specs.Seconds.{AreShort, IsReady, AreReady, HaveLines, IsThere, StopThere, LeadsOn, IsSecond, lists_at};

use crate::services::serve;
use queue_link::{LinkState, Turn};
use riders::Waiting;
use rows::Dwelling;
use std::alloc::AllocError;
use traffic::Occurrence;

/// Goes on with a second that was begun, up to the next vehicle that halts, which is served where it stops; answers whether it has to go
/// on.
fn one_turn(
    second: u32,
    dwell: &Dwelling,
    link: &mut LinkState,
    lines: &mut [Waiting],
    said: &mut Vec<Occurrence>,
) -> Result<bool, AllocError>
    requires second_in { second < LAST_SECOND }
    requires dwell_in { IsDwelling dwell.now }
    requires begun { link.old.raised ≡ second + 1 }
    requires ready { AreReady (length lines.old) link.old }
    requires short { AreShort lines.old }
    ensures leads { (lies : ℕ → Bool) (ws : List Waiter) → HaveLines lies lines.old ws → StopThere lies link.old
        → IfOk result (λ goes. LeadsOn lies goes (rules_of link.old.numbers dwell.now) second link.old.numbers.link ws
        link.old.lists said.old.items lines.old link.new.lists said.new.items lines.new) }
    ensures there { (lies : ℕ → Bool) → StopThere lies link.old → OnOk result (StopThere lies link.new) }
    ensures same { OnOk result (link.new ≡ record link.old { lists = link.new.lists }) }
    ensures ready { OnOk result (AreReady (length lines.new) link.new) }
    ensures short { OnOk result (AreShort lines.new) }
{
    let halt = link.turn(second, said)?;
    match halt {
        Turn::Stop(vehicle) => {
            serve(second, dwell, link, lines, vehicle, said)?;
            Ok(true)
        }
        Turn::Arrive(_vehicle) => Ok(true),
        Turn::Done => Ok(false),
    }
}

/// Goes on with a second that was begun, until nothing more moves in it. A link has fewer turns than a number can count: where it would
/// have more, there is no memory for its rows.
fn all_turns(
    second: u32,
    dwell: &Dwelling,
    link: &mut LinkState,
    lines: &mut [Waiting],
    said: &mut Vec<Occurrence>,
) -> Result<(), AllocError>
    requires second_in { second < LAST_SECOND }
    requires dwell_in { IsDwelling dwell.now }
    requires begun { link.old.raised ≡ second + 1 }
    requires ready { AreReady (length lines.old) link.old }
    requires short { AreShort lines.old }
    ensures leads { (lies : ℕ → Bool) (ws : List Waiter) → HaveLines lies lines.old ws → StopThere lies link.old
        → OnOk result (LeadsOn lies false (rules_of link.old.numbers dwell.now) second link.old.numbers.link ws
        link.old.lists said.old.items lines.old link.new.lists said.new.items lines.new) }
    ensures same { OnOk result (link.new ≡ record link.old { lists = link.new.lists }) }
    ensures short { OnOk result (AreShort lines.new) }
{
    'turns: for _turn in 0..u64::MAX {
        let goes = one_turn(second, dwell, link, lines, said)?;
        if !goes {
            return Ok(());
        }
    }
    Err(AllocError)
}

/// The second of a link: vehicles leave the bay, the credit is raised, the queue and then the wait list let their fronts go, and who stops
/// on the link is served by those who wait in the line of the stop. Appends what that tells.
///
/// The lists, the lines and what is told are those of the moves that `traffic` gives the link in this second, for all who wait at its
/// stops, and whichever stops lie on it.
///
/// # Errors
///
/// `AllocError`: there is no memory for a row, a rider or an event. The link is then of no use.
pub fn link_second(
    second: u32,
    dwell: &Dwelling,
    link: &mut LinkState,
    lines: &mut [Waiting],
    said: &mut Vec<Occurrence>,
) -> Result<(), AllocError>
    requires second_in { second < LAST_SECOND }
    requires dwell_in { IsDwelling dwell.now }
    requires later { link.old.raised ≤ second }
    requires ready { AreReady (length lines.old) link.old }
    requires bay { Each (IsReady (length lines.old) link.old.numbers.link) link.old.lists.bay }
    requires short { AreShort lines.old }
    ensures second { (lies : ℕ → Bool) (ws : List Waiter) → HaveLines lies lines.old ws → StopThere lies link.old
        → Each (IsThere lies link.old.numbers.link) link.old.lists.bay
        → OnOk result (IsSecond lies (rules_of link.old.numbers dwell.now) second link.old.numbers.link ws
        (lists_at second link.old) said.old.items lines.old link.new.lists said.new.items lines.new) }
    ensures raised { OnOk result (link.new ≡ record link.old { lists = link.new.lists; raised = second + 1 }) }
    ensures short { OnOk result (AreShort lines.new) }
{
    link.begin(second, said)?;
    all_turns(second, dwell, link, lines, said)?;
    Ok(())
}
