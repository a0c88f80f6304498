ghost use Rattle.std.specs.Prelude.{◌≡◌, ℕ, ◌+◌, ◌^◌, ◌<◌, ◌≤◌, length, IfOk, IfSome, IsSome};
ghost use Rattle.travel_times.specs.Times.{arrivals};
ghost use Rattle.walks.specs.{Certificates.AreSmall, Chosen.leads, Chosen.link_before, Chosen.followed, Rounds.label_at};
ghost use Rattle.walks.specs.Walks.{start_of, end_of};
ghost use Rattle.router.specs.Ways.{is_below};

use crate::adjacency::Adjacency;
use crate::label::Label;
use crate::star::Spoke;
use std::alloc::{AllocError, Global};
use travel_times::LinkTimes;

/// The label of a node, where there is one.
fn label_of(labels: &[Label], node: u32) -> Option<u64>
    requires { node < length labels.now }
    ensures { result ≡ label_at labels.now node }
{
    labels[node as usize].get()
}

/// Whether a link into a node leads to it: it begins at a labelled node, and the node is reached along it in the second of its label.
fn is_leading(
    adjacency: &Adjacency,
    times: &LinkTimes,
    labels: &[Label],
    node: u32,
    spoke: Spoke,
) -> bool
    requires link { spoke.link < length adjacency.now.ends }
    requires ends { end_of adjacency.now.ends spoke.link ≡ node }
    requires starts { spoke.node ≡ start_of adjacency.now.ends spoke.link }
    requires within { spoke.node < length labels.now }
    requires node { node < length labels.now }
    requires times { length times.now ≡ length adjacency.now.ends }
    requires small { AreSmall labels.now }
    ensures { result ≡ leads adjacency.now.ends (arrivals times.now) labels.now node spoke.link }
{
    let Some(left) = label_of(labels, spoke.node) else {
        return false;
    };
    label_of(labels, node) == Some(times.arrive(spoke.link, left))
}

/// The link before a node: of the links that lead there the one of the least number.
fn link_before(adjacency: &Adjacency, times: &LinkTimes, labels: &[Label], node: u32) -> Option<u32>
    requires node { node < adjacency.now.nodes }
    requires times { length times.now ≡ length adjacency.now.ends }
    requires labels { length labels.now ≡ adjacency.now.nodes }
    requires small { AreSmall labels.now }
    ensures { result ≡ link_before adjacency.now.ends (arrivals times.now) labels.now node }
{
    let mut least: Option<u32> = None;
    for &spoke in adjacency.into(node) {
        if is_leading(adjacency, times, labels, node, spoke) && is_below(spoke.link, least) {
            least = Some(spoke.link);
        }
    }
    least
}

/// Whether a link has a lower number than another, or there is no other.
fn is_below(link: u32, other: Option<u32>) -> bool
    ensures { result ≡ is_below link other }
{
    match other {
        None => true,
        Some(number) => link < number,
    }
}

/// The links from the start of a search to a node, followed back by the labels.
pub fn followed_back(
    alloc: Global,
    adjacency: &Adjacency,
    times: &LinkTimes,
    labels: &[Label],
    from: u32,
    to: u32,
) -> Result<Vec<u32>, AllocError>
    requires to { to < adjacency.now.nodes }
    requires times { length times.now ≡ length adjacency.now.ends }
    requires labels { length labels.now ≡ adjacency.now.nodes }
    requires small { AreSmall labels.now }
    requires label { IsSome (label_at labels.now to) }
    ensures { IfOk result (λ links. links.items
        ≡ followed adjacency.now.ends (arrivals times.now) labels.now from adjacency.now.nodes to) }
{
    let mut links = Vec::new(alloc);
    let mut node = to;
    while node != from {
        let Some(link) = link_before(adjacency, times, labels, node) else {
            break;
        };
        links.push(link)?;
        node = adjacency.start(link);
    }
    links.reverse();
    Ok(links)
}
