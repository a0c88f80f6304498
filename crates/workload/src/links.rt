//! The links of a grid, each by the numbers of the nodes that it joins.

ghost use Rattle.std.specs.Prelude.{◌≡◌, ◌<◌, ◌≤◌, ◌+◌, ◌*◌, ◌++◌, length, OnOk, IfOk};
ghost use Rattle.workload.specs.{Links.link_if, Links.links_from, Links.grid_links, declared.TheConstants.MOST_SIZE};

use std::alloc::{AllocError, Global};

/// Appends a link, where the node that it leads to is there.
fn push_if(there: bool, from: u32, to: u32, links: &mut Vec<(u32, u32)>) -> Result<(), AllocError>
    ensures link { OnOk result (links.new.items ≡ links.old.items ++ link_if there from to) }
    ensures count { OnOk result (length links.new.items ≤ length links.old.items + 1) }
{
    if there {
        links.push((from, to))?;
        return Ok(());
    }
    Ok(())
}

/// Appends the links that begin at a node.
#[tactic(auto, unfolding(crate::specs::Links::links_from))]
fn push_links_from(size: u32, node: u32, links: &mut Vec<(u32, u32)>) -> Result<(), AllocError>
    requires some { 1 ≤ size }
    requires few { size ≤ MOST_SIZE }
    requires node { node < size * size }
    ensures links { OnOk result (links.new.items ≡ links.old.items ++ links_from size node) }
    ensures count { OnOk result (length links.new.items ≤ length links.old.items + 4) }
{
    let (row, column) = (node / size, node % size);
    push_if(column + 1 < size, node, node + 1, links)?;
    push_if(0 < column, node, node.saturating_sub(1), links)?;
    push_if(row + 1 < size, node, node + size, links)?;
    push_if(0 < row, node, node.saturating_sub(size), links)?;
    Ok(())
}

/// All links of a grid of this size, by the numbers of the nodes where they begin.
#[tactic(auto, using(crate::proofs::Lines::more_pieces), unfolding(crate::specs::Links::grid_links))]
pub fn grid_links(alloc: Global, size: u32) -> Result<Vec<(u32, u32)>, AllocError>
    requires some { 1 ≤ size }
    requires few { size ≤ MOST_SIZE }
    ensures links { IfOk result (λ links. links.items ≡ grid_links size) }
    ensures count { IfOk result (λ links. length links.items ≤ 4 * (size * size)) }
{
    let mut links = Vec::new(alloc);
    for node in 0..size * size {
        push_links_from(size, node, &mut links)?;
    }
    Ok(links)
}
