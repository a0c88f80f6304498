//! The turn of a node that is woken.

ghost use Rattle.std.specs.Prelude.{◌≡◌, ℕ, ◌+◌, ◌<◌, ◌++◌, [], ◌∷◌, true, length, map, filter, OnOk, IfOk};
ghost use Rattle.limits.specs.declared.TheConstants.{LAST_SECOND};
ghost use Rattle.law_in_range.specs.Setups.{counts_in, HaveFittingPlans};
ghost use Rattle.town.specs.Views.{setup};
ghost use Rattle.traffic.specs.{Rows.World, Setup.into};
ghost use Rattle.node_move.specs.Spaces.{holes_in};
ghost use Rattle.node_seconds.specs.Networks.{lane};
ghost use Rattle.calendar.specs.Due.{AreIn};
ghost use Rattle.part_nodes.specs.{InLinks.slots_of, Steady.AreSteady, Turns.IsTurnOf, Turns.lights_of, Turns.buffered_in, Turns.is_clear};
ghost use Rattle.part_nodes.specs.Turns.{is_emptied, wake_emptied, wake_all_emptied, AreThere, is_buffered, only_of, HaveNumbersIn};
ghost use Rattle.part_nodes.specs.Phase.{Extent, HasLinks, LinksStandFor, LinksStandForSome, StandsForAt, Stands, IsPassed, IsTurn};

use crate::network::NetworkState;
use crate::resting::wake_again;
use crate::steady::{SteadyLights, is_always_green};
use calendar::Wakes;
use draws::Draws;
use events::Phase;
use node_move::{Entering, NodeTurn, Space};
use node_seconds::{enter_links, node_second, number_at};
use part_links::Told;
use queue_link::LinkState;
use rows::green_in;
use std::alloc::{AllocError, Global};
use std::slice::from_ref;
use town::DayInput;
use traffic::Occurrence;

/// A second of a day in which nodes let vehicles pass.
#[derive(Clone, Copy)]
pub struct NodePhase<'a> {
    /// The town, the plans that persons follow, and the iteration.
    pub day: &'a DayInput<'a>,
    /// The second, from the start of the day.
    pub second: u32,
    /// The slot of each link, by its number, among the links of the part that has it.
    pub link_slots: &'a [u32],
    /// Which links are always green.
    pub steady: &'a SteadyLights,
    pub ghost are_steady: { AreSteady day.now.town.now.greens steady.now },
}

/// A link, and how many vehicles were in its buffer.
#[derive(Clone, Copy)]
struct Buffered {
    /// The slot of the link.
    slot: u32,
    /// How many vehicles.
    count: usize,
}

/// The links into a node in whose buffers somebody is.
#[derive(Clone, Copy)]
struct Fronts<'a> {
    /// The slots of the links, in the order of their numbers.
    slots: &'a [u32],
    /// Whether each of them is green.
    greens: &'a [bool],
    /// How many vehicles are in the buffer of each.
    buffered: &'a [Buffered],
}

/// Whether a link is green in the second, by its signal.
#[tactic(auto, unfolding(town::specs::Setups::setup_of))]
fn shows_green(phase: &NodePhase, link: u32) -> bool
    requires second_in { phase.now.second < LAST_SECOND }
    requires there { link < length phase.now.day.now.town.now.network.links }
    ensures { result ≡ (setup phase.now.day.now).green link phase.now.second }
{
    green_in(&phase.day.town.greens, link, phase.second)
}

/// Whether a link is green in the second.
#[tactic(auto, using(crate::proofs::Held::green_of))]
fn is_green(phase: &NodePhase, link: u32) -> bool
    requires second_in { phase.now.second < LAST_SECOND }
    requires there { link < length phase.now.day.now.town.now.network.links }
    ensures { result ≡ (setup phase.now.day.now).green link phase.now.second }
{
    if is_always_green(phase, link) {
        return true;
    }
    shows_green(phase, link)
}

/// The lights of the links in these slots.
fn lights(
    alloc: Global,
    phase: &NodePhase,
    links: &[LinkState],
    slots: &[u32],
) -> Result<Vec<bool>, AllocError>
    requires second_in { phase.now.second < LAST_SECOND }
    requires there { AreIn (length links.now) slots.now }
    requires known { HaveNumbersIn (length phase.now.day.now.town.now.network.links) links.now }
    ensures { IfOk result (λ greens. greens.items ≡ lights_of (setup phase.now.day.now) phase.now.second links.now slots.now) }
{
    let mut greens = Vec::new(alloc);
    let mut rest = slots;
    while let [slot, later @ ..] = rest {
        greens.push(is_green(phase, number_at(links, *slot)))?;
        rest = later;
    }
    Ok(greens)
}

/// The link in a slot, with the count of vehicles in its buffer.
#[tactic(auto, using(node_move::proofs::Places::is_at))]
fn buffered_in(links: &[LinkState], slot: u32) -> Buffered
    requires { slot < length links.now }
    ensures { result ≡ buffered_in links.now slot }
{
    let link = &links[slot as usize];
    Buffered {
        slot,
        count: link.buffered(),
    }
}

/// The links in these slots with the counts of vehicles in their buffers, in order.
fn buffers_of(
    alloc: Global,
    links: &[LinkState],
    slots: &[u32],
) -> Result<Vec<Buffered>, AllocError>
    requires { AreIn (length links.now) slots.now }
    ensures { IfOk result (λ counts. counts.items ≡ map (buffered_in links.now) slots.now) }
{
    let mut counts = Vec::new(alloc);
    let mut rest = slots;
    while let [slot, later @ ..] = rest {
        counts.push(buffered_in(links, *slot))?;
        rest = later;
    }
    Ok(counts)
}

/// Whether nobody is on a link but in its buffer.
fn is_clear(link: &LinkState) -> bool
    ensures { result ≡ is_clear link.now }
{
    link.idle()
}

/// Whether nobody is on the link in a slot but in its buffer.
#[tactic(auto, using(node_move::proofs::Places::is_at))]
fn is_clear_at(links: &[LinkState], slot: u32) -> bool
    requires { slot < length links.now }
    ensures { result ≡ is_clear (lane links.now slot) }
{
    let link = &links[slot as usize];
    is_clear(link)
}

/// Whether the buffer of a link has not so many vehicles any more, and somebody else is on the link.
fn is_emptied(before: Buffered, links: &[LinkState]) -> bool
    requires { before.slot < length links.now }
    ensures { result ≡ is_emptied before links.now }
{
    let now = buffered_in(links, before.slot);
    now.count != before.count && !is_clear_at(links, before.slot)
}

/// A link is woken in this second where its buffer has not so many vehicles any more and somebody else is on it.
fn wake_emptied(
    second: u32,
    before: Buffered,
    links: &[LinkState],
    wakes: &mut Wakes,
) -> Result<(), AllocError>
    requires there { before.slot < length links.now }
    requires count { length wakes.old ≡ length links.now }
    ensures { OnOk result (wakes.new ≡ wake_emptied second before links.now wakes.old) }
{
    if is_emptied(before, links) {
        wakes.wake(before.slot, second)?;
    }
    Ok(())
}

/// Each of these links is woken in this second where its buffer has not so many vehicles any more and somebody else is on it.
#[tactic(auto, unfolding(crate::specs::Turns::wake_all_emptied))]
fn wake_all_emptied(
    second: u32,
    before: &[Buffered],
    links: &[LinkState],
    wakes: &mut Wakes,
) -> Result<(), AllocError>
    requires there { AreThere (length links.now) before.now }
    requires count { length wakes.old ≡ length links.now }
    ensures { OnOk result (wakes.new ≡ wake_all_emptied second before.now links.now wakes.old) }
{
    let mut rest = before;
    while let [first, later @ ..] = rest {
        wake_emptied(second, *first, links, wakes)?;
        rest = later;
    }
    Ok(())
}

/// What does not change over the turn of a node.
#[tactic(auto, unfolding(town::specs::Setups::setup_of))]
fn turn_of(day: &DayInput, second: u32, node: u32) -> NodeTurn
    ensures { IsTurnOf (setup day.now) second node result.stuck result.second result.draws }
{
    NodeTurn {
        second,
        stuck: day.town.settings.stuck,
        draws: Draws::of_node(day.town.seed, day.iteration, node),
    }
}

/// Whether somebody is in the buffer of the link in a slot.
fn is_buffered(links: &[LinkState], slot: u32) -> bool
    requires { slot < length links.now }
    ensures { result ≡ is_buffered links.now slot }
{
    buffered_in(links, slot).count > 0
}

/// The slots of those of these links in whose buffers somebody is, in order.
fn buffered_ones(alloc: Global, links: &[LinkState], slots: &[u32]) -> Result<Vec<u32>, AllocError>
    requires { AreIn (length links.now) slots.now }
    ensures { IfOk result (λ some. some.items ≡ filter (is_buffered links.now) slots.now) }
{
    let mut some = Vec::new(alloc);
    let mut rest = slots;
    while let [slot, later @ ..] = rest {
        if is_buffered(links, *slot) {
            some.push(*slot)?;
        }
        rest = later;
    }
    Ok(some)
}

/// The slot of the only one of these links in whose buffer somebody is, where there is just one.
fn only_buffered(links: &[LinkState], slots: &[u32]) -> Option<u32>
    requires { AreIn (length links.now) slots.now }
    ensures { result ≡ only_of (filter (is_buffered links.now) slots.now) }
{
    let mut only = None;
    for slot in slots {
        if is_buffered(links, *slot) {
            match only {
                None => only = Some(*slot),
                Some(_) => return None,
            }
        }
    }
    only
}

/// Those links into a node in whose buffers somebody is hand over to the links out of it, and those that have room in their buffers again
/// are woken in this second. Answers what that tells, and appends to `out` who enters a link of another part.
fn pass_fronts(
    phase: &NodePhase,
    node: u32,
    fronts: &Fronts,
    links: &mut [LinkState],
    space: &mut Space,
    wakes: &mut Wakes,
    out: &mut Vec<Entering>,
) -> Result<Vec<Occurrence>, AllocError>
    requires second_in { phase.now.second < LAST_SECOND }
    requires in_day { phase.now.second < phase.now.day.now.town.now.settings.end_second }
    requires given { HaveFittingPlans phase.now.day.now }
    requires into { fronts.now.slots.now
        ≡ filter (is_buffered links.old) (slots_of phase.now.link_slots.now (into (setup phase.now.day.now) node)) }
    requires lit { fronts.now.greens.now ≡ lights_of (setup phase.now.day.now) phase.now.second links.old fronts.now.slots.now }
    requires counted { fronts.now.buffered.now ≡ map (buffered_in links.old) fronts.now.slots.now }
    requires stand { LinksStandForSome (counts_in phase.now.day.now) (setup phase.now.day.now)
        phase.now.day.now.town.now.settings.end_second phase.now.second node phase.now.link_slots.now links.old wakes.old space.old }
    ensures passed { (E : Extent) (V : World) → HasLinks (setup phase.now.day.now) E phase.now.link_slots.now → E.mine node ≡ true
        → LinksStandFor (counts_in phase.now.day.now) (setup phase.now.day.now) E
        phase.now.day.now.town.now.settings.end_second phase.now.second links.old wakes.old space.old V
        → IfOk result (λ said. IsPassed (counts_in phase.now.day.now) (setup phase.now.day.now) E
        phase.now.day.now.town.now.settings.end_second phase.now.second node V links.new wakes.new space.new said.items
        out.old.items out.new.items) }
    ensures holes { OnOk result ((m : ℕ) → holes_in space.new m ≡ holes_in space.old m) }
{
    let day = phase.day;
    let second = phase.second;
    let turn = turn_of(day, second, node);
    let mut said = Vec::new(*out.allocator());
    let entering = node_second(&turn, fronts.slots, fronts.greens, links, space, &mut said)?;
    wake_all_emptied(second, fronts.buffered, links, wakes)?;
    let end = day.town.settings.end_second;
    enter_links(end, second, entering, phase.link_slots, links, wakes, out)?;
    Ok(said)
}

/// The links into a node hand over to the links out of it, and those that have room in their buffers again are woken in this second.
/// Answers what that tells, and appends to `out` who enters a link of another part. Only those links are looked at in whose buffers
/// somebody is; for a single one no list is made.
fn pass_node(
    phase: &NodePhase,
    node: u32,
    slots: &[u32],
    links: &mut [LinkState],
    space: &mut Space,
    wakes: &mut Wakes,
    out: &mut Vec<Entering>,
) -> Result<Vec<Occurrence>, AllocError>
    requires second_in { phase.now.second < LAST_SECOND }
    requires in_day { phase.now.second < phase.now.day.now.town.now.settings.end_second }
    requires given { HaveFittingPlans phase.now.day.now }
    requires into { slots.now ≡ slots_of phase.now.link_slots.now (into (setup phase.now.day.now) node) }
    requires stand { LinksStandForSome (counts_in phase.now.day.now) (setup phase.now.day.now)
        phase.now.day.now.town.now.settings.end_second phase.now.second node phase.now.link_slots.now links.old wakes.old space.old }
    ensures passed { (E : Extent) (V : World) → HasLinks (setup phase.now.day.now) E phase.now.link_slots.now → E.mine node ≡ true
        → LinksStandFor (counts_in phase.now.day.now) (setup phase.now.day.now) E
        phase.now.day.now.town.now.settings.end_second phase.now.second links.old wakes.old space.old V
        → IfOk result (λ said. IsPassed (counts_in phase.now.day.now) (setup phase.now.day.now) E
        phase.now.day.now.town.now.settings.end_second phase.now.second node V links.new wakes.new space.new said.items
        out.old.items out.new.items) }
    ensures holes { OnOk result ((m : ℕ) → holes_in space.new m ≡ holes_in space.old m) }
{
    match only_buffered(links, slots) {
        Some(slot) => {
            let green = is_green(phase, number_at(links, slot));
            let buffered = buffered_in(links, slot);
            let fronts = Fronts {
                slots: from_ref(&slot),
                greens: from_ref(&green),
                buffered: from_ref(&buffered),
            };
            let said = pass_fronts(phase, node, &fronts, links, space, wakes, out)?;
            Ok(said)
        }
        None => {
            let alloc = *out.allocator();
            let some = buffered_ones(alloc, links, slots)?;
            let greens = lights(alloc, phase, links, &some)?;
            let buffered = buffers_of(alloc, links, &some)?;
            let fronts = Fronts {
                slots: &some,
                greens: &greens,
                buffered: &buffered,
            };
            let said = pass_fronts(phase, node, &fronts, links, space, wakes, out)?;
            Ok(said)
        }
    }
}

/// The turn of a node. Appends what it tells, and to `out` who enters a link of another part.
///
/// # Errors
///
/// `AllocError`: there is no memory for a vehicle or an event. The network is then of no use.
pub(crate) fn turn_node(
    phase: &NodePhase,
    node: u32,
    slots: &[u32],
    network: &mut NetworkState,
    told: &mut Told,
    out: &mut Vec<Entering>,
) -> Result<(), AllocError>
    requires second_in { phase.now.second < LAST_SECOND }
    requires in_day { phase.now.second < phase.now.day.now.town.now.settings.end_second }
    requires given { HaveFittingPlans phase.now.day.now }
    requires there { node < (setup phase.now.day.now).nodes }
    requires into { slots.now ≡ slots_of phase.now.link_slots.now (into (setup phase.now.day.now) node) }
    requires stands { Stands (counts_in phase.now.day.now) (setup phase.now.day.now) phase.now.day.now.town.now.settings.end_second
        phase.now.second phase.now.link_slots.now (node ∷ []) network.old }
    ensures { (E : Extent) (V : World) → HasLinks (setup phase.now.day.now) E phase.now.link_slots.now → E.mine node ≡ true
        → StandsForAt (counts_in phase.now.day.now) (setup phase.now.day.now) E
        phase.now.day.now.town.now.settings.end_second phase.now.second network.old V
        → OnOk result (IsTurn (counts_in phase.now.day.now) (setup phase.now.day.now) E
        phase.now.day.now.town.now.settings.end_second phase.now.second node V network.old network.new
        told.old.events.items told.new.events.items told.old.said.items told.new.said.items out.old.items out.new.items) }
{
    let said = pass_node(
        phase,
        node,
        slots,
        &mut network.links,
        &mut network.places.space,
        &mut network.link_wakes,
        out,
    )?;
    wake_again(
        phase,
        node,
        slots,
        &network.links,
        &network.places.space,
        &mut network.node_wakes,
    )?;
    told.append(phase.second, Phase::C, node, &said)?;
    Ok(())
}
