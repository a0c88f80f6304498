//! Links are taken out of their slots, and put back.

ghost use Rattle.std.specs.Prelude.{◌≡◌, ℕ, ◌<◌, false, length, map, set, OnOk, IfOk};
ghost use Rattle.queue_link.specs.Links.{fresh};
ghost use Rattle.node_seconds.specs.Networks.{lane, is_among, AreOnce, put_back};
ghost use Rattle.calendar.specs.Due.{AreIn};

use queue_link::LinkState;
use std::alloc::{AllocError, Global};
use std::mem::replace;

/// Takes the link out of a slot; an empty one of the same numbers stands there then.
#[tactic(auto, using(node_move::proofs::Places::is_at))]
fn take_link(alloc: Global, links: &mut [LinkState], slot: u32) -> LinkState
    requires { slot < length links.old }
    ensures taken { result ≡ lane links.old slot }
    ensures rest { links.new ≡ set links.old slot (fresh (lane links.old slot).numbers) }
{
    let place = &mut links[slot as usize];
    let empty = LinkState::new(alloc, place.numbers());
    replace(place, empty)
}

/// Takes the links out of these slots, in order; empty ones stand there then.
pub(crate) fn take_links(
    alloc: Global,
    links: &mut [LinkState],
    slots: &[u32],
) -> Result<Vec<LinkState>, AllocError>
    requires there { AreIn (length links.old) slots.now }
    requires once { AreOnce slots.now }
    ensures taken { IfOk result (λ taken. taken.items ≡ map (lane links.old) slots.now) }
    ensures others { OnOk result ((k : ℕ) → is_among k slots.now ≡ false → lane links.new k ≡ lane links.old k) }
    ensures count { length links.new ≡ length links.old }
{
    let mut taken = Vec::new(alloc);
    for slot in slots {
        let link = take_link(alloc, links, *slot);
        taken.push(link)?;
    }
    Ok(taken)
}

/// Puts a link into a slot.
#[tactic(auto, using(std::proofs::lemmas::List::set_past))]
fn put_link(links: &mut [LinkState], slot: u32, link: LinkState)
    ensures { links.new ≡ set links.old slot link }
{
    let place = slot as usize;
    if place < links.len() {
        links[place] = link;
    }
}

/// Puts links into these slots, in order.
pub(crate) fn put_links(links: &mut [LinkState], slots: &[u32], taken: Vec<LinkState>)
    ensures { links.new ≡ put_back slots.now taken.items links.old }
{
    let mut rest = slots;
    for link in taken {
        if let [slot, later @ ..] = rest {
            put_link(links, *slot, link);
            rest = later;
        }
    }
}
