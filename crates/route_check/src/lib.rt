//! A checker of routes. Whoever made the labels is not trusted: where they are a certificate, no walk arrives earlier.
#![tactic(auto)]

ghost use Rattle.std.specs.Prelude.{◌≡◌, ℕ, ◌^◌, ◌<◌, ◌≤◌, ◌↔◌, List, length, IsTrue, Some, IfSome};
ghost use Rattle.limits.specs.declared.TheConstants.{MAX_LINKS};
ghost use Rattle.travel_times.specs.Times.{arrivals};
ghost use Rattle.rows.specs.Joined.{ends_of};
ghost use Rattle.walks.specs.Certificates.{IsInTime, IsKept, AreSmall, IsCertificate};
ghost use Rattle.walks.specs.{Rounds.label_at, Walks.IsWalk, Walks.arrival};

use rows::{LinkList, LinkRow, Network};
use travel_times::LinkTimes;
use walks::label_of;

/// Labels are below this second.
const LABEL_LIMIT: u64 = 1 << 60;

/// Whether every label is below the limit.
fn are_small(labels: &[Option<u64>]) -> bool
    ensures { IsTrue result ↔ AreSmall labels.now }
{
    for label in labels {
        if let Some(second) = label {
            if *second >= LABEL_LIMIT {
                return false;
            }
        }
    }
    true
}

/// Whether a link that begins at a labelled node ends at one whose label is no later than the arrival along the link.
fn is_kept(times: &LinkTimes, labels: &[Option<u64>], number: u32, link: &LinkRow) -> bool
    requires number { number < length times.now }
    requires small { AreSmall labels.now }
    ensures { IsTrue result ↔ IsInTime (arrivals times.now) labels.now number link.now.from link.now.to }
{
    let Some(left) = label_of(labels, link.from) else {
        return true;
    };
    let Some(reached) = label_of(labels, link.to) else {
        return false;
    };
    reached <= times.arrive(number, left)
}

/// Whether every link is kept.
fn are_kept(links: &LinkList, times: &LinkTimes, labels: &[Option<u64>]) -> bool
    requires few { length links.now ≤ MAX_LINKS }
    requires times { length times.now ≡ length links.now }
    requires small { AreSmall labels.now }
    ensures { IsTrue result ↔ ((link : ℕ) → link < length (ends_of links.now)
        → IsKept (ends_of links.now) (arrivals times.now) labels.now link) }
{
    for (number, link) in links.rows.iter().enumerate() {
        if !is_kept(times, labels, number as u32, link) {
            return false;
        }
    }
    true
}

/// Whether the labels are a certificate, one or none for each node, of the least arrivals from a node in a second, and `claimed` is that of
/// `to`. Then no walk from `from` in that second arrives at `to` before `claimed`.
pub fn check(
    network: &Network,
    times: &LinkTimes,
    from: u32,
    second: u64,
    to: u32,
    claimed: u64,
    labels: &[Option<u64>],
) -> bool
    requires from { from < length network.now.nodes }
    requires to { to < length network.now.nodes }
    requires times { length times.now ≡ length network.now.links }
    ensures certificate { IsTrue result
        ↔ (IsCertificate (length network.now.nodes) (ends_of network.now.links) (arrivals times.now) from second labels.now
        × (label_at labels.now to ≡ Some claimed)) }
    ensures none_earlier { IsTrue result → (links : List ℕ) → IsWalk (ends_of network.now.links) from links to
        → claimed ≤ arrival (arrivals times.now) second links }
{
    if labels.len() != network.nodes.len() {
        return false;
    }
    if label_of(labels, from) != Some(second) || label_of(labels, to) != Some(claimed) {
        return false;
    }
    if !are_small(labels) {
        return false;
    }
    are_kept(&network.links, times, labels)
}
