ghost use Rattle.std.specs.Prelude.{◌≡◌, ℕ, ◌^◌, ◌≤◌, ◌<◌, length, map, slice_index_or, slice_index, [], IfOk, All};
ghost use Rattle.std.specs.Prelude.{Contains};
ghost use Rattle.limits.specs.declared.TheConstants.{MAX_NODES};
ghost use Rattle.walks.specs.Walks.{start_of, end_of, AreWithin};
ghost use Rattle.router.specs.Stars.{AreBeside};

use crate::star::{Spoke, Star, star_beside};
use rows::{LinkList, Network};
use std::alloc::{AllocError, Global};
use std::marker::Model;

/// The nodes of a network with the links out of each and into each: made once for a network, and shared by all searches on it.
#[derive(Debug, Drop)]
pub struct Adjacency {
    /// Where each link begins.
    from: Vec<u32>,
    /// Where each link ends.
    to: Vec<u32>,
    out: Star,
    into: Star,
}

impl Model for Adjacency {
    ghost use Rattle.router.specs.Graphs.{Graph, kept_graph, IsAdjacency};

    ghost Value = { Graph };

    ghost view = { kept_graph };

    ghost invariant = { IsAdjacency };
}

/// The nodes where the links begin.
fn starts_of(alloc: Global, links: &LinkList) -> Result<Vec<u32>, AllocError>
    ensures { IfOk result (λ nodes. nodes.items ≡ map (λ link. link.from) links.now) }
{
    links.rows.iter().map(|link| link.from).collect(alloc)
}

/// The nodes where the links end.
fn ends_of(alloc: Global, links: &LinkList) -> Result<Vec<u32>, AllocError>
    ensures { IfOk result (λ nodes. nodes.items ≡ map (λ link. link.to) links.now) }
{
    links.rows.iter().map(|link| link.to).collect(alloc)
}

/// The node beside a link.
fn node_at(nodes: &[u32], link: u32) -> u32
    requires { link < length nodes.now }
    ensures { result ≡ slice_index nodes.now link }
{
    nodes[link as usize]
}

impl Adjacency {
    ghost use Rattle.router.specs.Graphs.{graph_of};

    /// The nodes of a network with the links beside them.
    pub fn of(alloc: Global, network: &Network) -> Result<Adjacency, AllocError>
        ensures { IfOk result (λ adjacency. adjacency ≡ graph_of network.now) }
    {
        let from = starts_of(alloc, &network.links)?;
        let to = ends_of(alloc, &network.links)?;
        let nodes = network.nodes.len();
        let out = star_beside(alloc, nodes, &from, &to)?;
        let into = star_beside(alloc, nodes, &to, &from)?;
        Ok(Adjacency {
            from,
            to,
            out,
            into,
        })
    }

    /// How many nodes there are.
    pub fn nodes(&self) -> usize
        ensures count { result ≡ self.now.nodes }
        ensures few { self.now.nodes ≤ MAX_NODES }
        ensures inside { AreWithin self.now.nodes self.now.ends }
    {
        self.out.len()
    }

    /// Where a link begins.
    #[tactic(auto, using(crate::proofs::Graphs::pair_at, crate::proofs::Graphs::ends_in_step, crate::proofs::Graphs::start_within))]
    pub fn start(&self, link: u32) -> u32
        requires { link < length self.now.ends }
        ensures node { result ≡ start_of self.now.ends link }
        ensures within { result < self.now.nodes }
    {
        node_at(&self.from, link)
    }

    /// Where a link ends.
    #[tactic(auto, using(crate::proofs::Graphs::pair_at, crate::proofs::Graphs::ends_in_step, crate::proofs::Graphs::end_within))]
    pub fn end(&self, link: u32) -> u32
        requires { link < length self.now.ends }
        ensures node { result ≡ end_of self.now.ends link }
        ensures within { result < self.now.nodes }
    {
        node_at(&self.to, link)
    }

    /// The links that begin at a node, with the nodes where they end.
    #[inline(always)]
    pub fn out_of(&self, node: u32) -> &[Spoke]
        requires { node < self.now.nodes }
        ensures each { All (λ spoke. (spoke.link < length self.now.ends) × (start_of self.now.ends spoke.link ≡ node)
            × (spoke.node ≡ end_of self.now.ends spoke.link) × (spoke.node < self.now.nodes)) result.now }
        ensures every { (link : ℕ) → link < length self.now.ends → start_of self.now.ends link ≡ node
            → Contains (map (λ spoke. spoke.link) result.now) link }
    {
        self.out.links_of(node as usize)
    }

    /// The links that end at a node, with the nodes where they begin.
    pub fn into(&self, node: u32) -> &[Spoke]
        requires { node < self.now.nodes }
        ensures each { All (λ spoke. (spoke.link < length self.now.ends) × (end_of self.now.ends spoke.link ≡ node)
            × (spoke.node ≡ start_of self.now.ends spoke.link) × (spoke.node < self.now.nodes)) result.now }
        ensures every { (link : ℕ) → link < length self.now.ends → end_of self.now.ends link ≡ node
            → Contains (map (λ spoke. spoke.link) result.now) link }
    {
        self.into.links_of(node as usize)
    }
}
