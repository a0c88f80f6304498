//! The phase in which the links of a network move.

ghost use Rattle.std.specs.Prelude.{◌≡◌, ℕ, ◌<◌, false, length, OnOk, IfOk};
ghost use Rattle.limits.specs.declared.TheConstants.{LAST_SECOND};
ghost use Rattle.rows.specs.Settings.{IsDwelling};
ghost use Rattle.traffic.specs.{Rows.World, Setup.Setup};
ghost use Rattle.link_seconds.specs.Seconds.{AreShort};
ghost use Rattle.calendar.specs.{Due.AreIn, Waking.woken};
ghost use Rattle.node_seconds.specs.Networks.{lane, is_among, AreOnce};
ghost use Rattle.part_links.specs.Links.{AreNumbered, LinksStandAt, LinesStandAt, StopsThere, CanTurn, AreAsleep};
ghost use Rattle.part_links.specs.Phase.{AreTurned, IsPhaseAt};

use crate::link_turns::{LinkPhase, Told, turn_link};
use calendar::Wakes;
use queue_link::LinkState;
use riders::Waiting;
use std::alloc::{AllocError, Global};

/// The turns of the links in these slots, one after the other.
fn turn_links(
    alloc: Global,
    phase: &LinkPhase,
    slots: &[u32],
    links: &mut [LinkState],
    lines: &mut [Waiting],
    wakes: &mut Wakes,
    told: &mut Told,
) -> Result<(), AllocError>
    requires second_in { phase.now.second < LAST_SECOND }
    requires dwell_in { IsDwelling phase.now.dwell }
    requires there { AreIn (length links.old) slots.now }
    requires once { AreOnce slots.now }
    requires count { length wakes.old ≡ length links.old }
    requires able { (l : ℕ) → l < length links.old → CanTurn (length lines.old) phase.now.second (lane links.old l) }
    requires short { AreShort lines.old }
    ensures turned { (number : ℕ → ℕ) (size : ℕ) (S : Setup) (V : World)
        → AreNumbered S size number → S.settings.dwell ≡ phase.now.dwell
        → LinksStandAt number size S phase.now.second links.old V → LinesStandAt number size S lines.old V
        → ((k : ℕ) → k < size → StopsThere S (number k) (lane links.old k))
        → OnOk result (AreTurned number S phase.now.end phase.now.second V slots.now links.old links.new lines.new wakes.old wakes.new
        told.old.events.items told.new.events.items told.old.said.items told.new.said.items) }
    ensures others { OnOk result ((l : ℕ) → is_among l slots.now ≡ false → lane links.new l ≡ lane links.old l) }
    ensures count { OnOk result (length wakes.new ≡ length links.new) }
    ensures short { OnOk result (AreShort lines.new) }
{
    for slot in slots {
        turn_link(alloc, phase, *slot, links, lines, wakes, told)?;
    }
    Ok(())
}

/// The links in these slots move in a second: those that are woken in it have their turns, slot by slot, and are woken again when they may
/// have something to do. Appends what that tells, and answers which slots had a turn. All links, lines and events are then those of the
/// phase in which every one of these links has its turn, by whatever world these links and lines stand for: of the links of the network
/// in the slots of their numbers, or of those that a part has, whichever they are.
///
/// # Errors
///
/// `AllocError`: there is no memory for the slots, a row, a rider or an event. The links are then of no use.
pub fn move_links(
    alloc: Global,
    phase: &LinkPhase,
    links: &mut [LinkState],
    lines: &mut [Waiting],
    wakes: &mut Wakes,
    told: &mut Told,
) -> Result<Vec<u32>, AllocError>
    requires second_in { phase.now.second < LAST_SECOND }
    requires in_day { phase.now.second < phase.now.end }
    requires dwell_in { IsDwelling phase.now.dwell }
    requires count { length wakes.old ≡ length links.old }
    requires able { (l : ℕ) → l < length links.old → CanTurn (length lines.old) phase.now.second (lane links.old l) }
    requires short { AreShort lines.old }
    ensures phase { (number : ℕ → ℕ) (size : ℕ) (S : Setup) (V : World)
        → AreNumbered S size number → S.settings.dwell ≡ phase.now.dwell
        → LinksStandAt number size S phase.now.second links.old V → LinesStandAt number size S lines.old V
        → ((k : ℕ) → k < size → StopsThere S (number k) (lane links.old k))
        → AreAsleep phase.now.dwell phase.now.end phase.now.second links.old wakes.old
        → OnOk result (IsPhaseAt number size S phase.now.end phase.now.second V links.new lines.new wakes.new
        told.old.events.items told.new.events.items told.old.said.items told.new.said.items) }
    ensures slots { IfOk result (λ slots. slots.items ≡ woken phase.now.second wakes.old) }
    ensures others { IfOk result (λ slots. (k : ℕ) → is_among k slots.items ≡ false → lane links.new k ≡ lane links.old k) }
    ensures short { OnOk result (AreShort lines.new) }
{
    let slots = wakes.take(phase.second)?;
    turn_links(alloc, phase, &slots, links, lines, wakes, told)?;
    Ok(slots)
}
