//! The nodes of a network in an order in which those of each partition follow one another.

ghost use Rattle.std.specs.Prelude.{◌≡◌, ◌≤◌, ◌-◌, ◌+◌, ℕ, length, IsPermutation};
ghost use Rattle.std.specs.List.{AllByRecursion as Each};
ghost use Rattle.limits.specs.declared.TheConstants.{MAX_NODES, MAX_PARTITIONS};
ghost use Rattle.partition.specs.Cuts.{nodes_before, cuts_from, is_sorted_at};

use crate::axes::{Axis, sort_along};
use rows::NodeRow;

/// The nodes of a network, and among how many partitions they are divided.
#[derive(Clone, Copy)]
pub(crate) struct Division<'a> {
    pub(crate) nodes: &'a [NodeRow],
    pub(crate) parts: u32,
}

/// How many of so many nodes belong to the partitions before one, of so many partitions.
pub(crate) fn nodes_before(nodes: usize, parts: u32, partition: u32) -> usize
    requires some { 1 ≤ parts }
    requires few { parts ≤ MAX_PARTITIONS }
    requires few_nodes { nodes ≤ MAX_NODES }
    requires inside { partition ≤ parts }
    ensures { result ≡ nodes_before nodes parts partition }
{
    partition as usize * nodes / parts as usize
}

/// Puts the nodes of `count` partitions from `first` on in such an order: cuts them in two along the axis, and each half along the
/// other axis, down to one partition. The lower half of the partitions, rounded down, gets the nodes that come first.
pub(crate) fn arrange(division: &Division, axis: Axis, first: u32, count: u32, members: &mut [u32])
    requires some { 1 ≤ division.now.parts }
    requires few { division.now.parts ≤ MAX_PARTITIONS }
    requires few_nodes { length division.now.nodes.now ≤ MAX_NODES }
    requires inside { first + count ≤ division.now.parts }
    requires share { length members.old + nodes_before (length division.now.nodes.now) division.now.parts first
        ≡ nodes_before (length division.now.nodes.now) division.now.parts (first + count) }
    ensures same { IsPermutation members.old members.new }
    ensures cut { (depth : ℕ) → count ≤ depth
        → Each (is_sorted_at division.now.nodes.now division.now.parts
        (nodes_before (length division.now.nodes.now) division.now.parts first) members.new)
        (cuts_from depth axis first count) }
{
    if count <= 1 {
        return;
    }
    sort_along(axis, division.nodes, members);
    let low = count / 2;
    let nodes = division.nodes.len();
    let before = nodes_before(nodes, division.parts, first);
    let middle = nodes_before(nodes, division.parts, first + low);
    let (lesser, greater) = members.split_at_mut(middle - before);
    arrange(division, axis.across(), first, low, lesser);
    arrange(division, axis.across(), first + low, count - low, greater);
}
