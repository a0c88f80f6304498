//! Whether the front of a buffer may enter its next link.

ghost use Rattle.std.specs.Prelude.{◌≡◌, Some};
ghost use Rattle.traffic.specs.Nodes.{has_room, is_stuck, may_enter};

use rows::Stuck;
use traffic::OutLink;

/// Whether a front since this second is stuck.
pub fn is_stuck(stuck: &Stuck, second: u32, since: u32) -> bool
    ensures { result ≡ is_stuck stuck.now second since }
{
    stuck.seconds <= second.saturating_sub(since)
}

/// Whether a link has fewer taken places than its storage.
pub fn has_free_place(out_link: OutLink) -> bool
    ensures { result ≡ has_room (Some out_link) }
{
    out_link.taken < u64::from(out_link.storage)
}

/// Whether a front since this second may enter a link.
pub fn may_enter(stuck: &Stuck, second: u32, since: u32, out_link: Option<OutLink>) -> bool
    ensures { result ≡ may_enter stuck.now second since out_link }
{
    match out_link {
        None => false,
        Some(out_link) => {
            has_free_place(out_link) || (stuck.push && is_stuck(stuck, second, since))
        }
    }
}
