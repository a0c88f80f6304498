//! A network is divided among partitions.

ghost use Rattle.std.specs.Prelude.{◌≡◌, ◌≤◌, ◌<◌, ◌+◌, length, get_or, IfOk, IsPermutation};
ghost use Rattle.limits.specs.declared.TheConstants.{MAX_NODES, MAX_PARTITIONS};
ghost use Rattle.traffic.specs.Lists.{below};
ghost use Rattle.partition.specs.Halves.{IsHalved, partition_at, AreDealt};

use crate::axes::Axis;
use crate::cutting::{Division, arrange};
use crate::owner::Owner;
use events::Rows;
use rows::Network;
use std::alloc::{AllocError, Global};

/// The numbers below this one.
fn numbers_below(alloc: Global, count: u32) -> Result<Vec<u32>, AllocError>
    ensures { IfOk result (λ numbers. numbers.items ≡ below count) }
{
    let mut numbers = Vec::new(alloc);
    for number in 0..count {
        numbers.push(number)?;
    }
    Ok(numbers)
}

/// The partition of the node at a place, where each partition has its share of the nodes and they follow one another.
fn partition_at(nodes: usize, parts: u32, place: usize) -> u32
    requires some { 1 ≤ parts }
    requires few { parts ≤ MAX_PARTITIONS }
    requires few_nodes { nodes ≤ MAX_NODES }
    requires there { place < nodes }
    ensures value { result ≡ partition_at nodes parts place }
    ensures below { result < parts }
{
    (((place + 1) * parts as usize - 1) / nodes) as u32
}

/// Gives each node the partition of its place in this order.
fn deal(alloc: Global, parts: u32, order: &[u32]) -> Result<Vec<u32>, AllocError>
    requires some { 1 ≤ parts }
    requires few { parts ≤ MAX_PARTITIONS }
    requires few_nodes { length order.now ≤ MAX_NODES }
    requires all { IsPermutation (below (length order.now)) order.now }
    ensures { IfOk result (λ of_node. (length of_node.items ≡ length order.now) × AreDealt parts order.now of_node.items) }
{
    let mut of_node = vec![in alloc; 0; order.len()]?;
    for (place, node) in order.iter().enumerate() {
        of_node[*node as usize] = partition_at(order.len(), parts, place);
    }
    Ok(of_node)
}

/// Divides the nodes of a network among so many partitions, by halves. Partition `p` of `parts` gets
/// `floor((p + 1) * n / parts) - floor(p * n / parts)` of the `n` nodes. They are cut in two by x, each half by y, and so on in turn, nodes
/// that lie at one place by their numbers; of `k` partitions the lower `floor(k / 2)` get the lesser side. A partition may be empty.
///
/// # Errors
///
/// `AllocError`: there is no memory for a number for each node.
pub fn halve(alloc: Global, network: &Network, parts: u32) -> Result<Owner, AllocError>
    requires some { 1 ≤ parts }
    requires few { parts ≤ MAX_PARTITIONS }
    ensures { IfOk result (λ owner. (owner.parts ≡ parts) × IsHalved network.now.nodes parts owner.of_node) }
{
    let nodes = &network.nodes;
    let mut order = numbers_below(alloc, nodes.rows.len() as u32)?;
    let division = Division {
        nodes: &nodes.rows,
        parts,
    };
    arrange(&division, Axis::X, 0, parts, &mut order);
    let rows = deal(alloc, parts, &order)?;
    Ok(Owner {
        parts,
        of_node: Rows { rows },
    })
}
