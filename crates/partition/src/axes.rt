//! Nodes in their order along an axis.

ghost use Rattle.std.specs.{List.Sorted.IsSortedBy, Prelude.◌≡◌, Prelude.IsPermutation};
ghost use Rattle.partition.specs.Axes.{across, coordinate, lies_before};

use rows::NodeRow;

/// The axis along which a network is cut.
#[derive(Clone, Copy, Debug, PartialEq, Eq)]
pub enum Axis {
    X,
    Y,
}

impl Axis {
    /// The other axis.
    pub(crate) fn across(self) -> Axis
        ensures { result ≡ across self }
    {
        match self {
            Axis::X => Axis::Y,
            Axis::Y => Axis::X,
        }
    }
}

/// Where a node lies along an axis, in centimetres; a number that is no node lies at 0.
fn coordinate(axis: Axis, nodes: &[NodeRow], node: u32) -> i64
    ensures { result ≡ coordinate axis nodes.now node }
{
    let place = node as usize;
    if place >= nodes.len() {
        return 0;
    }
    match axis {
        Axis::X => nodes[place].x,
        Axis::Y => nodes[place].y,
    }
}

/// Puts nodes in their order along an axis, and nodes that lie at one place by their numbers.
pub(crate) fn sort_along(axis: Axis, nodes: &[NodeRow], members: &mut [u32])
    ensures same { IsPermutation members.old members.new }
    ensures sorted { IsSortedBy (lies_before axis nodes.now) members.new }
{
    members.sort_unstable_by_key(|node| (coordinate(axis, nodes, *node), *node));
}
