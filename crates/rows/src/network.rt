ghost use Rattle.std.specs.{List.list_all, Prelude.◌≡◌, Prelude.◌≤◌, Prelude.ℕ, Prelude.length, Prelude.true};
ghost use Rattle.limits.specs.declared.TheConstants.{MAX_IN_LINKS, MAX_LINKS, MAX_NODES};
ghost use Rattle.rows.specs.Networks.{is_link, in_links};

use events::{Names, Rows};

/// Where a node lies, in centimetres.
#[derive(Clone, Copy, Debug, PartialEq, Eq)]
pub struct NodeRow {
    pub x: i64,
    pub y: i64,
}

/// A link from one node to another, or to the same, by the nodes' numbers.
#[derive(Clone, Copy, Debug, PartialEq, Eq)]
pub struct LinkRow {
    pub from: u32,
    pub to: u32,
    /// In centimetres.
    pub length: u32,
    /// In centimetres a second.
    pub speed: u32,
    /// In vehicles an hour.
    pub capacity: u32,
    pub lanes: u32,
}

/// Nodes, by their numbers.
pub type NodeList = Rows<NodeRow>;

/// Links, by their numbers.
pub type LinkList = Rows<LinkRow>;

/// A road network: a name for each node and each link.
///
/// Every link begins and ends at one of the nodes, and its numbers are in their ranges: a length
/// of 1 to 10,000,000 cm, a speed of 1 to 10,000 cm/s, a capacity of 1 to 100,000 vehicles an hour
/// and 1 to 20 lanes. There are at most 131,072 nodes, 262,144 links and 16 links into a node.
#[derive(Drop)]
pub struct Network {
    pub node_names: Names,
    pub link_names: Names,
    pub nodes: NodeList,
    pub links: LinkList,
    pub ghost each_node: { length node_names ≡ length nodes },
    pub ghost each_link: { length link_names ≡ length links },
    pub ghost few_nodes: { length nodes ≤ MAX_NODES },
    pub ghost few_links: { length links ≤ MAX_LINKS },
    pub ghost few_in_links: { (node : ℕ) → in_links links node ≤ MAX_IN_LINKS },
    pub ghost sound: { list_all (is_link (length nodes)) links ≡ true },
}
