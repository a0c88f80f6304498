//! The drawing of links at a node.

ghost use Rattle.std.specs.Prelude.{◌≡◌, ◌<◌, ◌≤◌, ◌+◌, length, map, get_or, IfOk};
ghost use Rattle.limits.specs.declared.TheConstants.{MAX_IN_LINKS};
ghost use Rattle.traffic.specs.{Lists.without_at, Nodes.drawn, Nodes.no_in_link, Nodes.weight_of};
ghost use Rattle.plain_turns.specs.OutLinks.{IsInLink, AreInLinks};

use draws::pick;
use std::alloc::{AllocError, Global};
use traffic::InLink;

fn capacities(alloc: Global, in_links: &[InLink]) -> Result<Vec<u64>, AllocError>
    ensures { IfOk result (λ weights. weights.items ≡ map weight_of in_links.now) }
{
    in_links
        .iter()
        .map(|in_link| u64::from(in_link.capacity))
        .collect(alloc)
}

/// The place that the word draws by these weights.
fn pick_of(weights: &[u64], word: u32, in_links: &[InLink]) -> usize
    requires weights { weights.now ≡ map weight_of in_links.now }
    requires are { AreInLinks in_links.now }
    requires some { 0 < length in_links.now }
    requires few { length in_links.now ≤ MAX_IN_LINKS }
    ensures value { result ≡ drawn in_links.now word }
    ensures within { result < length in_links.now }
{
    pick(weights, word)
}

/// The place of the candidate that the word draws.
pub fn drawn(alloc: Global, in_links: &[InLink], word: u32) -> Result<usize, AllocError>
    requires are { AreInLinks in_links.now }
    requires some { 0 < length in_links.now }
    requires few { length in_links.now ≤ MAX_IN_LINKS }
    ensures value { IfOk result (λ k. k ≡ drawn in_links.now word) }
    ensures within { IfOk result (λ k. k < length in_links.now) }
{
    let weights = capacities(alloc, in_links)?;
    Ok(pick_of(&weights, word, in_links))
}

/// Takes the candidate at a place out.
pub fn take_in_link(in_links: &mut Vec<InLink>, k: usize) -> InLink
    requires within { k < length in_links.old.items }
    requires are { AreInLinks in_links.old.items }
    ensures value { result ≡ get_or in_links.old.items k no_in_link }
    ensures rest { in_links.new.items ≡ without_at k in_links.old.items }
    ensures count { length in_links.new.items + 1 ≡ length in_links.old.items }
    ensures is { IsInLink result }
    ensures are_after { AreInLinks in_links.new.items }
{
    in_links.remove(k)
}
