//! The partitions of the links of a day.

ghost use Rattle.std.specs.Prelude.{◌≡◌};
ghost use Rattle.parts.specs.Owners.{owner_of};
ghost use Rattle.town.specs.Views.{setup};
ghost use Rattle.partition.specs.Owned.{owner_in};

use crate::crossings::end_node;
use crate::owner::{Owner, owner_of_node};
use town::DayInput;

/// The partition of a link of a day, which is that of the node at its end. A number that is no link belongs to the partition of node 0.
#[tactic(auto, unfolding(town::specs::Setups::setup_of))]
pub fn owner_of_link(day: &DayInput, owner: &Owner, link: u32) -> u32
    ensures { result ≡ owner_of (setup day.now) (owner_in owner.now.of_node) link }
{
    let node = end_node(&day.town.network.links, link);
    owner_of_node(&owner.of_node, node)
}
