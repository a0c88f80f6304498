//! The turn of a link that is woken.

ghost use Rattle.std.specs.Prelude.{◌≡◌, ℕ, ◌+◌, ◌<◌, ◌++◌, Bool, List, [], length, set, OnOk, IfOk};
ghost use Rattle.std.specs.List.{AllByRecursion as Each};
ghost use Rattle.events.specs.Keys.{phase_code};
ghost use Rattle.limits.specs.declared.TheConstants.{LAST_SECOND};
ghost use Rattle.rows.specs.Settings.{IsDwelling};
ghost use Rattle.traffic.specs.{Day.keyed, declared.world.Waiter.Waiter};
ghost use Rattle.queue_link.specs.{Numbers.rules_of, Waking.due_of};
ghost use Rattle.link_seconds.specs.Seconds.{AreShort, HaveLines, IsThere, StopThere, IsSecond, lists_at};
ghost use Rattle.node_seconds.specs.Networks.{lane};
ghost use Rattle.part_links.specs.{Links.CanTurn, Links.no_sooner, Links.wake_after, Phase.IsTurn, Phase.of_persons};

use calendar::{Wakes, within};
use events::{Event, Phase};
use link_seconds::link_second;
use node_seconds::number_at;
use person_moves::push_keyed;
use queue_link::LinkState;
use riders::Waiting;
use rows::Dwelling;
use std::alloc::{AllocError, Global};
use traffic::Occurrence;

/// A second of a day in which links move: the second, the end of the day, and how long vehicles stand at stops.
#[derive(Clone, Copy, Debug, PartialEq, Eq)]
pub struct LinkPhase {
    /// The second, from the start of the day.
    pub second: u32,
    /// The second in which the day ends; nobody is woken from then on.
    pub end: u32,
    /// How long vehicles stand at stops.
    pub dwell: Dwelling,
}

/// What is told: as events with their keys, and as it concerns persons.
#[derive(Drop)]
pub struct Told {
    /// The events, in the order of their keys.
    pub events: Vec<Event>,
    /// Those of them, without keys, that tell of a person and that persons have not heard yet: most tell of a vehicle alone.
    pub said: Vec<Occurrence>,
}

/// Appends those of these that tell of a person.
#[tactic(auto, using(std::proofs::Common::append_assoc))]
fn push_of_persons(said: &[Occurrence], heard: &mut Vec<Occurrence>) -> Result<(), AllocError>
    ensures { OnOk result (heard.new.items ≡ heard.old.items ++ of_persons said.now) }
{
    let mut rest = said;
    while let [event, later @ ..] = rest {
        if event.person.is_some() {
            heard.push(*event)?;
        }
        rest = later;
    }
    Ok(())
}

impl Told {
    /// Appends what a turn tells: that of the link or node of this number, in this second and phase.
    ///
    /// # Errors
    ///
    /// `AllocError`: there is no memory for it. Part of it may be appended.
    pub fn append(
        &mut self,
        second: u32,
        phase: Phase,
        number: u32,
        said: &[Occurrence],
    ) -> Result<(), AllocError>
        ensures events { OnOk result (self.new.events.items
            ≡ self.old.events.items ++ keyed second (phase_code phase) number 0 said.now) }
        ensures said { OnOk result (self.new.said.items ≡ self.old.said.items ++ of_persons said.now) }
    {
        push_keyed(second, phase, number, said, &mut self.events)?;
        push_of_persons(said, &mut self.said)
    }
}

/// The second of the link in a slot; answers what it tells.
#[tactic(auto, using(node_move::proofs::Places::is_at, crate::proofs::Standing::lane_set))]
fn turn_at(
    alloc: Global,
    phase: &LinkPhase,
    slot: u32,
    links: &mut [LinkState],
    lines: &mut [Waiting],
) -> Result<Vec<Occurrence>, AllocError>
    requires second_in { phase.now.second < LAST_SECOND }
    requires dwell_in { IsDwelling phase.now.dwell }
    requires there { slot < length links.old }
    requires able { CanTurn (length lines.old) phase.now.second (lane links.old slot) }
    requires short { AreShort lines.old }
    ensures second { (lies : ℕ → Bool) (ws : List Waiter) → HaveLines lies lines.old ws → StopThere lies (lane links.old slot)
        → Each (IsThere lies (lane links.old slot).numbers.link) (lane links.old slot).lists.bay
        → IfOk result (λ said. IsSecond lies (rules_of (lane links.old slot).numbers phase.now.dwell) phase.now.second
        (lane links.old slot).numbers.link ws (lists_at phase.now.second (lane links.old slot)) [] lines.old
        (lane links.new slot).lists said.items lines.new) }
    ensures link { OnOk result (lane links.new slot
        ≡ record (lane links.old slot) { lists = (lane links.new slot).lists; raised = phase.now.second + 1 }) }
    ensures others { OnOk result (links.new ≡ set links.old slot (lane links.new slot)) }
    ensures short { OnOk result (AreShort lines.new) }
{
    let mut said = Vec::new(alloc);
    let link = &mut links[slot as usize];
    link_second(phase.second, &phase.dwell, link, lines, &mut said)?;
    Ok(said)
}

/// No sooner than this second, where there is one.
fn no_sooner(second: u32, due: Option<u32>) -> Option<u32>
    ensures { result ≡ no_sooner second due }
{
    match due {
        None => None,
        Some(due) => Some(second.max(due)),
    }
}

/// When a link is due after its turn in this second.
#[tactic(auto, using(node_move::proofs::Places::is_at))]
fn due_at(links: &[LinkState], slot: u32, second: u32) -> Option<u32>
    requires second_in { second < LAST_SECOND }
    requires there { slot < length links.now }
    ensures { result ≡ due_of (lane links.now slot).numbers second (lane links.now slot).lists }
{
    let link = &links[slot as usize];
    link.due(second)
}

/// A link that had its turn is woken again when it may have something to do.
fn wake_again(
    phase: &LinkPhase,
    slot: u32,
    links: &[LinkState],
    wakes: &mut Wakes,
) -> Result<(), AllocError>
    requires second_in { phase.now.second < LAST_SECOND }
    requires there { slot < length links.now }
    requires count { length wakes.old ≡ length links.now }
    ensures { OnOk result (wakes.new ≡ set wakes.old slot (wake_after phase.now.end phase.now.second (lane links.now slot))) }
{
    let due = due_at(links, slot, phase.second);
    let later = no_sooner(phase.second + 1, due);
    wakes.set(slot, within(phase.end, later))?;
    Ok(())
}

/// The turn of the link in a slot, which is then woken again when it may have something to do.
///
/// # Errors
///
/// `AllocError`: there is no memory for a row, a rider or an event. The links are then of no use.
pub(crate) fn turn_link(
    alloc: Global,
    phase: &LinkPhase,
    slot: u32,
    links: &mut [LinkState],
    lines: &mut [Waiting],
    wakes: &mut Wakes,
    told: &mut Told,
) -> Result<(), AllocError>
    requires second_in { phase.now.second < LAST_SECOND }
    requires dwell_in { IsDwelling phase.now.dwell }
    requires there { slot < length links.old }
    requires count { length wakes.old ≡ length links.old }
    requires able { CanTurn (length lines.old) phase.now.second (lane links.old slot) }
    requires short { AreShort lines.old }
    ensures turn { (lies : ℕ → Bool) (ws : List Waiter) → HaveLines lies lines.old ws → StopThere lies (lane links.old slot)
        → Each (IsThere lies (lane links.old slot).numbers.link) (lane links.old slot).lists.bay
        → OnOk result (IsTurn lies phase.now.dwell phase.now.second (lane links.old slot).numbers.link ws (lane links.old slot)
        (lane links.new slot) lines.old lines.new told.old.events.items told.new.events.items told.old.said.items told.new.said.items) }
    ensures others { OnOk result (links.new ≡ set links.old slot (lane links.new slot)) }
    ensures woken { OnOk result (wakes.new
        ≡ set wakes.old slot (wake_after phase.now.end phase.now.second (lane links.new slot))) }
    ensures short { OnOk result (AreShort lines.new) }
{
    let number = number_at(links, slot);
    let said = turn_at(alloc, phase, slot, links, lines)?;
    wake_again(phase, slot, links, wakes)?;
    told.append(phase.second, Phase::D, number, &said)?;
    Ok(())
}
