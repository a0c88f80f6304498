use smallvec::SmallVec;
use std::marker::Model;

/// How many links into a node have a place in its row itself: into most nodes of a road network no more than four lead.
const FEW: usize = 4;

/// The slots of the links into each node, in the order of the links' numbers: each among the links of the part that has the node. Where
/// few lead into a node they stand in its row itself, and not in a list of their own elsewhere. Contracts see a list of them for each
/// node.
#[derive(Drop)]
pub struct InLinks {
    pub(crate) rows: Vec<SmallVec<u32, FEW>>,
}

impl Model for InLinks {
    ghost use Rattle.std.specs.Prelude.{ℕ, List};
    ghost use Rattle.part_nodes.specs.InLinkViews.{in_links_view};

    ghost Value = { List (List ℕ) };

    ghost view = { in_links_view };
}
