ghost use Rattle.std.specs.{List.slice_range, Prelude.◌≡◌, Prelude.ℕ, Prelude.◌+◌, Prelude.◌^◌, Prelude.◌<◌};
ghost use Rattle.std.specs.Prelude.{◌≤◌, ◌++◌, ◌∷◌, [], length, map, slice_index, slice_index_or, slice_set, replicate};
ghost use Rattle.std.specs.Prelude.{IfOk, OnOk, All};
ghost use Rattle.router.specs.Stars.{AreBeside};

use std::alloc::{AllocError, Global};
use std::marker::Model;

/// A link beside a node, and the node at its other end.
#[derive(Clone, Copy, Debug, PartialEq, Eq)]
pub struct Spoke {
    pub link: u32,
    pub node: u32,
}

/// A list of links for each node, all in one array: those of a node follow each other from the node's start on, each with the node at its
/// other end, so that a search reads one place in memory for a node.
#[derive(Debug, Drop)]
pub struct Star {
    starts: Vec<usize>,
    links: Vec<Spoke>,
}

impl Model for Star {
    ghost use Rattle.std.specs.Prelude.{List};
    ghost use Rattle.router.specs.declared.star.Spoke.{Spoke};

    ghost Value = { List (List Spoke) };

    ghost use Rattle.router.specs.Stars.{lists_of, IsStar};

    ghost view = { lists_of };

    ghost invariant = { IsStar };
}

/// Where the links of a node begin, and where those of the next node do.
fn span(starts: &[usize], node: usize) -> (usize, usize)
    requires { node + 1 < length starts.now }
    ensures { result ≡ (slice_index starts.now node, slice_index starts.now (node + 1)) }
{
    (starts[node], starts[node + 1])
}

/// The links from one place up to another.
fn part(links: &[Spoke], from: usize, to: usize) -> &[Spoke]
    requires order { from ≤ to }
    requires end { to ≤ length links.now }
    ensures { result.now ≡ slice_range links.now from to }
{
    &links[from..to]
}

impl Star {
    /// No node.
    fn none(alloc: Global) -> Result<Star, AllocError>
        ensures { IfOk result (λ star. star ≡ []) }
    {
        let mut starts = Vec::new(alloc);
        starts.push(0)?;
        Ok(Star {
            starts,
            links: Vec::new(alloc),
        })
    }

    /// One node more, with these links.
    fn with(self, more: &[Spoke]) -> Result<Star, AllocError>
        ensures { IfOk result (λ star. star ≡ self ++ more.now ∷ []) }
    {
        let Star {
            mut starts,
            mut links,
        } = self;
        links.extend_from_slice(more)?;
        starts.push(links.len())?;
        Ok(Star { starts, links })
    }

    /// How many nodes there are.
    pub fn len(&self) -> usize
        ensures { result ≡ length self.now }
    {
        self.starts.len() - 1
    }

    /// The links of a node.
    #[inline(always)]
    pub fn links_of(&self, node: usize) -> &[Spoke]
        requires { node < length self.now }
        ensures { result.now ≡ slice_index_or self.now node [] }
    {
        let (from, to) = span(&self.starts, node);
        part(&self.links, from, to)
    }
}

/// So many lists without a link.
fn no_lists(alloc: Global, nodes: usize) -> Result<Vec<Vec<Spoke>>, AllocError>
    ensures { IfOk result (λ lists. map (λ list. list.items) lists.items ≡ replicate nodes []) }
{
    let mut lists = Vec::new(alloc);
    for _ in 0..nodes {
        lists.push(Vec::new(alloc))?;
    }
    Ok(lists)
}

/// Puts a link at the end of a node's list.
fn push_link(lists: &mut Vec<Vec<Spoke>>, node: usize, link: Spoke) -> Result<(), AllocError>
    requires { node < length lists.old.items }
    ensures { OnOk result (map (λ list. list.items) lists.new.items
        ≡ slice_set (map (λ list. list.items) lists.old.items) node
        (slice_index_or (map (λ list. list.items) lists.old.items) node [] ++ link ∷ [])) }
{
    let list = &mut lists[node];
    list.push(link)?;
    Ok(())
}

/// The links of each node, by the node that each link is beside, with the nodes at their other ends.
fn lists_beside(
    alloc: Global,
    nodes: usize,
    beside: &[u32],
    others: &[u32],
) -> Result<Vec<Vec<Spoke>>, AllocError>
    requires within { All (λ node. node < nodes) beside.now }
    requires few { length beside.now < 2 ^ 32 }
    requires each { length others.now ≡ length beside.now }
    ensures count { IfOk result (λ lists. length lists.items ≡ nodes) }
    ensures lists { IfOk result (λ lists. AreBeside (slice_index beside.now) (slice_index others.now) (length beside.now)
        (map (λ list. list.items) lists.items)) }
{
    let mut lists = no_lists(alloc, nodes)?;
    for (link, &node) in beside.iter().enumerate() {
        let spoke = Spoke {
            link: link as u32,
            node: others[link],
        };
        push_link(&mut lists, node as usize, spoke)?;
    }
    Ok(lists)
}

/// The same in one array.
pub fn star_beside(
    alloc: Global,
    nodes: usize,
    beside: &[u32],
    others: &[u32],
) -> Result<Star, AllocError>
    requires within { All (λ node. node < nodes) beside.now }
    requires few { length beside.now < 2 ^ 32 }
    requires each { length others.now ≡ length beside.now }
    ensures count { IfOk result (λ star. length star ≡ nodes) }
    ensures lists { IfOk result (λ star. AreBeside (slice_index beside.now) (slice_index others.now) (length beside.now) star) }
{
    let lists = lists_beside(alloc, nodes, beside, others)?;
    let mut star = Star::none(alloc)?;
    for list in &lists {
        star = star.with(list)?;
    }
    Ok(star)
}
