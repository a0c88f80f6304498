//! In which slots links stand.

ghost use Rattle.std.specs.Prelude.{◌≡◌, ◌<◌, length};
ghost use Rattle.node_seconds.specs.Networks.{lane, slot_in};

use queue_link::LinkState;

/// The number of the link in a slot.
#[tactic(auto, using(node_move::proofs::Places::is_at))]
pub fn number_at(links: &[LinkState], slot: u32) -> u32
    requires { slot < length links.now }
    ensures { result ≡ (lane links.now slot).numbers.link }
{
    let link = &links[slot as usize];
    link.numbers().link
}

/// The slot of a link: the one that a table gives it, where the link stands in it.
#[tactic(auto, unfolding(crate::specs::Networks::slot_in))]
pub(crate) fn slot_in(link_slots: &[u32], links: &[LinkState], link: u32) -> Option<u32>
    ensures { result ≡ slot_in link_slots.now links.now link }
{
    let number = link as usize;
    if number >= link_slots.len() {
        return None;
    }
    let slot = link_slots[number];
    if slot as usize >= links.len() {
        return None;
    }
    if number_at(links, slot) != link {
        return None;
    }
    Some(slot)
}
