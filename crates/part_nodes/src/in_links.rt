//! Which links lead into each node.

ghost use Rattle.std.specs.Prelude.{◌≡◌, ℕ, ◌<◌, [], length, get_or, replicate, OnOk, IfOk};
ghost use Rattle.traffic.specs.Setup.{into};
ghost use Rattle.calendar.specs.Due.{HasOneMore};
ghost use Rattle.town.specs.Views.{setup};
ghost use Rattle.part_nodes.specs.InLinks.{AreInto, leads_to, slots_of};

use crate::in_link_rows::InLinks;
use rows::{LinkList, LinkRow};
use smallvec::SmallVec;
use std::alloc::{AllocError, Global};
use town::DayInput;

impl InLinks {
    /// No link leads into these nodes.
    fn none(alloc: Global, nodes: usize) -> Result<InLinks, AllocError>
        ensures { IfOk result (λ links. links ≡ replicate nodes []) }
    {
        let mut rows = Vec::new(alloc);
        for _node in 0..nodes {
            rows.push(SmallVec::new(alloc))?;
        }
        Ok(InLinks { rows })
    }

    /// One link more leads into a node; it stands in this slot.
    fn put(&mut self, node: u32, slot: u32) -> Result<(), AllocError>
        requires { node < length self.old }
        ensures more { OnOk result (HasOneMore node slot self.old self.new) }
        ensures nodes { OnOk result (length self.new ≡ length self.old) }
    {
        self.rows[node as usize].push(slot)?;
        Ok(())
    }

    /// The slots of the links into so many nodes, by the slot of each link.
    fn of_links(
        alloc: Global,
        nodes: usize,
        links: &[LinkRow],
        slots: &[u32],
    ) -> Result<InLinks, AllocError>
        requires table { length slots.now ≡ length links.now }
        requires there { (l : ℕ) → l < length links.now → leads_to links.now l < nodes }
        ensures { IfOk result (λ in_links. AreInto nodes (length links.now) links.now slots.now in_links) }
    {
        let mut in_links = InLinks::none(alloc, nodes)?;
        for (number, row) in links.iter().enumerate() {
            in_links.put(row.to, slots[number])?;
        }
        Ok(in_links)
    }

    /// The same by the list of links of a network.
    fn of_list(
        alloc: Global,
        nodes: usize,
        links: &LinkList,
        slots: &[u32],
    ) -> Result<InLinks, AllocError>
        requires table { length slots.now ≡ length links.now }
        requires there { (l : ℕ) → l < length links.now → leads_to links.now l < nodes }
        ensures { IfOk result (λ in_links. AreInto nodes (length links.now) links.now slots.now in_links) }
    {
        let in_links = InLinks::of_links(alloc, nodes, &links.rows, slots)?;
        Ok(in_links)
    }

    /// The slots of the links into each node of the town, by the slot of each link among those of the part that has it.
    ///
    /// # Errors
    ///
    /// `AllocError`: there is no memory for them.
    pub fn new(alloc: Global, day: &DayInput, link_slots: &[u32]) -> Result<InLinks, AllocError>
        requires { length link_slots.now ≡ length (setup day.now).links }
        ensures count { IfOk result (λ in_links. length in_links ≡ (setup day.now).nodes) }
        ensures links { IfOk result (λ in_links. (n : ℕ) → n < (setup day.now).nodes
            → get_or in_links n [] ≡ slots_of link_slots.now (into (setup day.now) n)) }
    {
        let nodes = day.town.network.nodes.len();
        let in_links = InLinks::of_list(alloc, nodes, &day.town.network.links, link_slots)?;
        Ok(in_links)
    }

    /// The slots of the links into a node, in the order of their numbers.
    pub fn of_node(&self, node: u32) -> &[u32]
        requires { node < length self.now }
        ensures { result.now ≡ get_or self.now node [] }
    {
        &self.rows[node as usize]
    }
}
