//! nodes.csv and links.csv.

ghost use Rattle.std.specs.Prelude.{◌≡◌, ◌<◌, ◌≤◌, ◌*◌, ◌++◌, OnOk, IfOk, string_bytes};
ghost use Rattle.plan_text.specs.Lines.{row_line};
ghost use Rattle.workload.specs.{Rows.node_row, Rows.link_row, Texts.nodes_text, Texts.links_text, declared.TheConstants.MOST_SIZE};

use crate::links::grid_links;
use crate::{FREE_SPEED, LINK_CAPACITY, NODE_DISTANCE};
use std::alloc::{AllocError, Global};

#[tactic(auto, unfolding(plan_text::specs::Lines::row_line))]
fn push_node(size: u32, node: u32, text: &mut String) -> Result<(), AllocError>
    requires some { 1 ≤ size }
    requires few { size ≤ MOST_SIZE }
    requires node { node < size * size }
    ensures { OnOk result (string_bytes text.new ≡ string_bytes text.old ++ row_line (node_row size node)) }
{
    let x = node % size * NODE_DISTANCE;
    let y = node / size * NODE_DISTANCE;
    write!(text, "n{node},{x},{y}\n")
}

#[tactic(auto, unfolding(plan_text::specs::Lines::row_line))]
fn push_link(link: (u32, u32), text: &mut String) -> Result<(), AllocError>
    ensures { OnOk result (string_bytes text.new ≡ string_bytes text.old ++ row_line (link_row link)) }
{
    let (from, to) = link;
    write!(
        text,
        "l{from}_{to},n{from},n{to},{NODE_DISTANCE},{FREE_SPEED},{LINK_CAPACITY},1\n"
    )
}

#[tactic(auto, using(crate::proofs::Lines::more_pieces), unfolding(crate::specs::Texts::nodes_text))]
pub fn nodes_text(alloc: Global, size: u32) -> Result<String, AllocError>
    requires some { 1 ≤ size }
    requires few { size ≤ MOST_SIZE }
    ensures { IfOk result (λ text. string_bytes text ≡ nodes_text size) }
{
    let mut text = String::from_str(alloc, "node,x,y\n")?;
    for node in 0..size * size {
        push_node(size, node, &mut text)?;
    }
    Ok(text)
}

#[tactic(auto, unfolding(crate::specs::Texts::links_text))]
pub fn links_text(alloc: Global, size: u32) -> Result<String, AllocError>
    requires some { 1 ≤ size }
    requires few { size ≤ MOST_SIZE }
    ensures { IfOk result (λ text. string_bytes text ≡ links_text size) }
{
    let links = grid_links(alloc, size)?;
    let mut text = String::from_str(alloc, "link,from,to,length,speed,capacity,lanes\n")?;
    let mut rest = links.as_slice();
    while let [link, after @ ..] = rest {
        push_link(*link, &mut text)?;
        rest = after;
    }
    Ok(text)
}
