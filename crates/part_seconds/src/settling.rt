//! What the turns of links, and places that come free, mean for when nodes are woken; and what the turns of links mean for places and for
//! the queues of links that begin elsewhere.

ghost use Rattle.std.specs.{List.flat_map, Option.option_to_list};
ghost use Rattle.std.specs.Prelude.{◌≡◌, ◌<◌, ◌≤◌, ◌+◌, ℕ, Bool, true, length, set, OnOk, IfOk};
ghost use Rattle.limits.specs.declared.TheConstants.{LAST_SECOND};
ghost use Rattle.calendar.specs.Due.{AreIn};
ghost use Rattle.partition.specs.Owned.{owner_in};
ghost use Rattle.town.specs.Views.{setup};
ghost use Rattle.traffic.specs.Setup.{hole_of};
ghost use Rattle.law_parts_of_days.specs.Settling.{link_at, queued_in, buffered_in, wake_end, wake_ends, wake_start, wake_starts};
ghost use Rattle.part_places.specs.Taking.{Taking, AreTakenOf, begins_here, later};
ghost use Rattle.part_seconds.specs.Settling.{left_one, left_all, AreFew, AreApart, freed_at, put_queues};

use crate::FreedPlaces;
use crate::runs::Run;
use calendar::Wakes;
use node_seconds::number_at;
use part_places::{Places, QueueAfter, begins_here};
use person_moves::{hole_of, link_row};
use queue_link::LinkState;
use std::alloc::{AllocError, Global};
use town::DayInput;

/// How many vehicles are in the queue of the link in a slot; none where no link is.
#[tactic(auto, using(node_move::proofs::Places::is_at, std::proofs::lemmas::List::get_or_past))]
fn queued_in(links: &[LinkState], slot: u32) -> usize
    ensures { result ≡ queued_in links.now slot }
{
    let place = slot as usize;
    if place >= links.len() {
        return 0;
    }
    let link = &links[place];
    link.queued()
}

/// How many are in its buffer.
#[tactic(auto, using(node_move::proofs::Places::is_at))]
fn buffered_in(links: &[LinkState], slot: u32) -> usize
    requires { slot < length links.now }
    ensures { result ≡ buffered_in links.now slot }
{
    let link = &links[slot as usize];
    link.buffered()
}

/// The places that vehicles left on the link in a slot, which begins here, come free when the holes are over.
fn leave_own(
    day: &DayInput,
    second: u32,
    slot: u32,
    links: &[LinkState],
    places: &mut Places,
) -> Result<(), AllocError>
    requires there { slot < length links.now }
    requires link { link_at links.now slot < length day.now.town.now.network.links }
    ensures { let S = setup day.now in let n = link_at links.now slot in let end = day.now.town.now.settings.end_second in
        (begins : ℕ → Bool) (T : Taking) → begins n ≡ true → queued_in links.now slot ≤ T.queued n
        → AreTakenOf begins (length S.links) end (second + 1) T places.old
        → OnOk result (AreTakenOf begins (length S.links) end (second + 1)
        (later n (queued_in links.now slot) (second + hole_of S n) T) places.new) }
{
    let link = number_at(links, slot);
    let after = QueueAfter {
        second,
        link,
        queued: queued_in(links, slot),
        hole_seconds: hole_of(day, link),
    };
    places.leave(day.town.settings.end_second, after)
}

/// The places that vehicles left on the link in a slot in this second come free when the holes are over, if it begins here.
fn leave_place(
    run: &Run,
    partition: u32,
    second: u32,
    slot: u32,
    links: &[LinkState],
    places: &mut Places,
) -> Result<(), AllocError>
    requires there { slot < length links.now }
    requires link { link_at links.now slot < length run.now.day.now.town.now.network.links }
    ensures { let S = setup run.now.day.now in let own = owner_in run.now.owner.now.of_node in
        let end = run.now.day.now.town.now.settings.end_second in
        (T : Taking) → (begins_here S own partition (link_at links.now slot) ≡ true
        → queued_in links.now slot ≤ T.queued (link_at links.now slot))
        → AreTakenOf (begins_here S own partition) (length S.links) end (second + 1) T places.old
        → OnOk result (AreTakenOf (begins_here S own partition) (length S.links) end (second + 1)
        (left_one S own partition second links.now slot T) places.new) }
{
    if begins_here(run.day, run.owner, partition, number_at(links, slot)) {
        return leave_own(run.day, second, slot, links, places);
    }
    Ok(())
}

/// So with those in these slots, which had their turns.
fn leave_places(
    run: &Run,
    partition: u32,
    second: u32,
    slots: &[u32],
    links: &[LinkState],
    places: &mut Places,
) -> Result<(), AllocError>
    requires there { AreIn (length links.now) slots.now }
    requires links { (k : ℕ) → k < length links.now → link_at links.now k < length run.now.day.now.town.now.network.links }
    ensures { let S = setup run.now.day.now in let own = owner_in run.now.owner.now.of_node in
        let end = run.now.day.now.town.now.settings.end_second in
        (T : Taking) → AreApart links.now → AreFew S own partition links.now T
        → AreTakenOf (begins_here S own partition) (length S.links) end (second + 1) T places.old
        → OnOk result (AreTakenOf (begins_here S own partition) (length S.links) end (second + 1)
        (left_all S own partition second links.now slots.now T) places.new) }
{
    for slot in slots {
        leave_place(run, partition, second, *slot, links, places)?;
    }
    Ok(())
}

/// How many vehicles left the queue of the link in a slot, if it begins elsewhere and any did.
fn freed_at(
    run: &Run,
    partition: u32,
    slot: u32,
    links: &[LinkState],
    queues: &[usize],
) -> Option<FreedPlaces>
    requires there { slot < length links.now }
    requires link { link_at links.now slot < length run.now.day.now.town.now.network.links }
    requires queues { length queues.now ≡ length links.now }
    ensures { let S = setup run.now.day.now in let own = owner_in run.now.owner.now.of_node in
        option_to_list result ≡ freed_at S own partition links.now queues.now slot }
{
    let link = number_at(links, slot);
    if begins_here(run.day, run.owner, partition, link) {
        return None;
    }
    let count = queues[slot as usize].saturating_sub(queued_in(links, slot));
    if count == 0 {
        return None;
    }
    Some(FreedPlaces { link, count })
}

/// The same of these slots, in order.
fn all_freed_at(
    run: &Run,
    partition: u32,
    slots: &[u32],
    links: &[LinkState],
    queues: &[usize],
) -> Result<Vec<FreedPlaces>, AllocError>
    requires there { AreIn (length links.now) slots.now }
    requires links { (k : ℕ) → k < length links.now → link_at links.now k < length run.now.day.now.town.now.network.links }
    requires queues { length queues.now ≡ length links.now }
    ensures { IfOk result (λ freed. freed.items ≡ flat_map (freed_at (setup run.now.day.now) (owner_in run.now.owner.now.of_node)
        partition links.now queues.now) slots.now) }
{
    let mut freed = Vec::new(run.alloc);
    let mut rest = slots;
    while let [slot, later @ ..] = rest {
        if let Some(freed_places) = freed_at(run, partition, *slot, links, queues) {
            freed.push(freed_places)?;
        }
        rest = later;
    }
    Ok(freed)
}

/// The table has how many vehicles are in the queue of the link in a slot.
#[tactic(auto, using(std::proofs::lemmas::List::set_past))]
fn put_queue(slot: u32, links: &[LinkState], queues: &mut [usize])
    ensures { queues.new ≡ set queues.old slot (queued_in links.now slot) }
{
    let queued = queued_in(links, slot);
    let place = slot as usize;
    if place < queues.len() {
        queues[place] = queued;
    }
}

/// The table has how many vehicles are in the queues of the links in these slots.
#[tactic(auto, unfolding(crate::specs::Settling::put_queues))]
pub fn put_queues(slots: &[u32], links: &[LinkState], queues: &mut [usize])
    ensures { queues.new ≡ put_queues links.now slots.now queues.old }
{
    let mut rest = slots;
    while let [slot, later @ ..] = rest {
        put_queue(*slot, links, queues);
        rest = later;
    }
}

/// The node at the end of the link in a slot is woken in the next second, where somebody is in the link's buffer.
fn wake_end(
    day: &DayInput,
    second: u32,
    slot: u32,
    links: &[LinkState],
    node_wakes: &mut Wakes,
) -> Result<(), AllocError>
    requires second_in { second < LAST_SECOND }
    requires there { slot < length links.now }
    requires link { link_at links.now slot < length day.now.town.now.network.links }
    requires nodes { length node_wakes.old ≡ length day.now.town.now.network.nodes }
    ensures { OnOk result (node_wakes.new ≡ wake_end (setup day.now) second links.now slot node_wakes.old) }
{
    if buffered_in(links, slot) > 0 {
        let row = link_row(day, number_at(links, slot));
        node_wakes.set(row.to, Some(second + 1))?;
    }
    Ok(())
}

/// So with those in these slots, which had their turns.
#[tactic(auto, unfolding(law_parts_of_days::specs::Settling::wake_ends))]
fn wake_ends(
    day: &DayInput,
    second: u32,
    slots: &[u32],
    links: &[LinkState],
    node_wakes: &mut Wakes,
) -> Result<(), AllocError>
    requires second_in { second < LAST_SECOND }
    requires there { AreIn (length links.now) slots.now }
    requires links { (k : ℕ) → k < length links.now → link_at links.now k < length day.now.town.now.network.links }
    requires nodes { length node_wakes.old ≡ length day.now.town.now.network.nodes }
    ensures { OnOk result (node_wakes.new ≡ wake_ends (setup day.now) second links.now slots.now node_wakes.old) }
{
    let mut rest = slots;
    while let [slot, later @ ..] = rest {
        wake_end(day, second, *slot, links, node_wakes)?;
        rest = later;
    }
    Ok(())
}

/// The places that vehicles left on links that begin here come free later, and the nodes at the ends of links are woken where
/// somebody is in their buffers: the links in these slots had their turns in this second.
pub(crate) fn settle_links(
    run: &Run,
    partition: u32,
    second: u32,
    slots: &[u32],
    links: &[LinkState],
    places: &mut Places,
    node_wakes: &mut Wakes,
) -> Result<(), AllocError>
    requires second_in { second < LAST_SECOND }
    requires there { AreIn (length links.now) slots.now }
    requires links { (k : ℕ) → k < length links.now → link_at links.now k < length run.now.day.now.town.now.network.links }
    requires nodes { length node_wakes.old ≡ length run.now.day.now.town.now.network.nodes }
    ensures places { let S = setup run.now.day.now in let own = owner_in run.now.owner.now.of_node in
        let end = run.now.day.now.town.now.settings.end_second in
        (T : Taking) → AreApart links.now → AreFew S own partition links.now T
        → AreTakenOf (begins_here S own partition) (length S.links) end (second + 1) T places.old
        → OnOk result (AreTakenOf (begins_here S own partition) (length S.links) end (second + 1)
        (left_all S own partition second links.now slots.now T) places.new) }
    ensures nodes { OnOk result (node_wakes.new ≡ wake_ends (setup run.now.day.now) second links.now slots.now node_wakes.old) }
{
    leave_places(run, partition, second, slots, links, places)?;
    wake_ends(run.day, second, slots, links, node_wakes)?;
    Ok(())
}

/// How many vehicles left the queues of those of these links that begin elsewhere. The table has then how many are in them.
pub(crate) fn take_freed(
    run: &Run,
    partition: u32,
    slots: &[u32],
    links: &[LinkState],
    queues: &mut [usize],
) -> Result<Vec<FreedPlaces>, AllocError>
    requires there { AreIn (length links.now) slots.now }
    requires links { (k : ℕ) → k < length links.now → link_at links.now k < length run.now.day.now.town.now.network.links }
    requires queues { length queues.old ≡ length links.now }
    ensures freed { let S = setup run.now.day.now in let own = owner_in run.now.owner.now.of_node in
        IfOk result (λ freed. freed.items ≡ flat_map (freed_at S own partition links.now queues.old) slots.now) }
    ensures queues { OnOk result (queues.new ≡ put_queues links.now slots.now queues.old) }
{
    let freed = all_freed_at(run, partition, slots, links, queues)?;
    put_queues(slots, links, queues);
    Ok(freed)
}

/// The node at the start of a link is woken in this second, where the link is one of the town and begins in this part.
#[tactic(auto, unfolding(town::specs::Setups::setup_of))]
fn wake_start(
    run: &Run,
    partition: u32,
    second: u32,
    link: u32,
    node_wakes: &mut Wakes,
) -> Result<(), AllocError>
    requires { length node_wakes.old ≡ length run.now.day.now.town.now.network.nodes }
    ensures { OnOk result (node_wakes.new
        ≡ wake_start (setup run.now.day.now) (owner_in run.now.owner.now.of_node) partition second link node_wakes.old) }
{
    if (link as usize) < run.day.town.network.links.len()
        && begins_here(run.day, run.owner, partition, link)
    {
        let row = link_row(run.day, link);
        node_wakes.set(row.from, Some(second))?;
    }
    Ok(())
}

/// So with each of these links, on which places came free.
#[tactic(auto, unfolding(law_parts_of_days::specs::Settling::wake_starts))]
pub(crate) fn wake_starts(
    run: &Run,
    partition: u32,
    second: u32,
    links: &[u32],
    node_wakes: &mut Wakes,
) -> Result<(), AllocError>
    requires { length node_wakes.old ≡ length run.now.day.now.town.now.network.nodes }
    ensures { OnOk result (node_wakes.new
        ≡ wake_starts (setup run.now.day.now) (owner_in run.now.owner.now.of_node) partition second links.now node_wakes.old) }
{
    let mut rest = links;
    while let [link, later @ ..] = rest {
        wake_start(run, partition, second, *link, node_wakes)?;
        rest = later;
    }
    Ok(())
}
