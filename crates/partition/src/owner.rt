ghost use Rattle.std.specs.Prelude.{◌≡◌, ◌≤◌, ◌<◌, ℕ};
ghost use Rattle.partition.specs.Owned.{owner_in};
ghost use Rattle.limits.specs.declared.TheConstants.{MAX_PARTITIONS};

use events::Rows;

/// The partition of each node, by the nodes' numbers.
pub type OwnerList = Rows<u32>;

/// Which partition each node of a network belongs to, of 1 to `MAX_PARTITIONS` partitions, numbered from 0. A link belongs to its end
/// node's partition. A number that is no node belongs to partition 0.
#[derive(Drop)]
pub struct Owner {
    pub parts: u32,
    pub of_node: OwnerList,
    pub ghost some: { 1 ≤ parts },
    pub ghost few: { parts ≤ MAX_PARTITIONS },
    pub ghost owned: { (n : ℕ) → owner_in of_node n < parts },
}

/// The partition of a node.
pub fn owner_of_node(of_node: &OwnerList, node: u32) -> u32
    ensures { result ≡ owner_in of_node.now node }
{
    let place = node as usize;
    if place < of_node.rows.len() {
        return of_node.rows[place];
    }
    0
}
