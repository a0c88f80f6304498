//! Vehicles come into the queues of links.

ghost use Rattle.std.specs.Prelude.{◌≡◌, ◌+◌, ◌<◌, ◌++◌, [], ◌∷◌, length, set, filter, Some, OnOk};
ghost use Rattle.limits.specs.declared.TheConstants.{LAST_SECOND};
ghost use Rattle.node_seconds.specs.Networks.{lane, slot_in, with_queued, wake_queued, goes_out};
ghost use Rattle.node_seconds.specs.Networks.{accepted, accepted_all, wakes_after, wakes_after_all};

use crate::slots::slot_in;
use calendar::Wakes;
use node_move::Entering;
use queue_link::LinkState;
use std::alloc::AllocError;

/// A vehicle comes to the link in a slot; where it is alone in the queue the link is woken when its second comes.
fn queue_up(
    end: u32,
    second: u32,
    slot: u32,
    entering: Entering,
    links: &mut [LinkState],
    wakes: &mut Wakes,
) -> Result<(), AllocError>
    requires second_in { second < LAST_SECOND }
    requires there { slot < length links.old }
    requires wakes { length wakes.old ≡ length links.old }
    ensures links { OnOk result (links.new ≡ set links.old slot (with_queued second entering (lane links.old slot))) }
    ensures wakes { OnOk result (wakes.new ≡ wake_queued end second (Some slot) links.old wakes.old) }
{
    let Entering {
        link: _link,
        vehicle,
    } = entering;
    let target = &mut links[slot as usize];
    let alone = target.queued() == 0;
    let due = second + target.numbers().seconds;
    target.accept(second, vehicle)?;
    if alone && due < end {
        wakes.wake(slot, due)?;
    }
    Ok(())
}

/// A vehicle comes to its link, or goes out where that has no slot.
fn accept(
    end: u32,
    second: u32,
    entering: Entering,
    link_slots: &[u32],
    links: &mut [LinkState],
    wakes: &mut Wakes,
    out: &mut Vec<Entering>,
) -> Result<(), AllocError>
    requires second_in { second < LAST_SECOND }
    requires wakes { length wakes.old ≡ length links.old }
    ensures links { OnOk result (links.new ≡ accepted (slot_in link_slots.now links.old) second entering links.old) }
    ensures wakes { OnOk result (wakes.new
        ≡ wakes_after (slot_in link_slots.now links.old) end second entering links.old wakes.old) }
    ensures out { OnOk result (out.new.items
        ≡ out.old.items ++ filter (goes_out (slot_in link_slots.now links.old)) (entering ∷ [])) }
{
    match slot_in(link_slots, links, entering.link) {
        None => {
            out.push(entering)?;
            Ok(())
        }
        Some(slot) => {
            queue_up(end, second, slot, entering, links, wakes)?;
            Ok(())
        }
    }
}

/// Vehicles come to links, in order, in this second: to the ends of their queues. A link whose queue was empty is woken when the second of
/// its vehicle comes, if that is before the end of the day. The links stand in slots, and a table tells those by number; to `out` go, in
/// order, those vehicles whose links stand in none: these are links of other parts of the network.
///
/// # Errors
///
/// `AllocError`: there is no memory for a row or a vehicle. The links are then of no use.
pub fn enter_links(
    end: u32,
    second: u32,
    entering: Vec<Entering>,
    link_slots: &[u32],
    links: &mut [LinkState],
    wakes: &mut Wakes,
    out: &mut Vec<Entering>,
) -> Result<(), AllocError>
    requires second_in { second < LAST_SECOND }
    requires wakes { length wakes.old ≡ length links.old }
    ensures links { OnOk result (links.new
        ≡ accepted_all (slot_in link_slots.now links.old) second entering.items links.old) }
    ensures wakes { OnOk result (wakes.new
        ≡ wakes_after_all (slot_in link_slots.now links.old) end second entering.items links.old wakes.old) }
    ensures out { OnOk result (out.new.items
        ≡ out.old.items ++ filter (goes_out (slot_in link_slots.now links.old)) entering.items) }
{
    for vehicle in entering {
        accept(end, second, vehicle, link_slots, links, wakes, out)?;
    }
    Ok(())
}
