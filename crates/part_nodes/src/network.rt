use calendar::Wakes;
use part_places::Places;
use queue_link::LinkState;

/// The links of a network in their slots, all or those of a part, the places on links, and when links and nodes are woken.
#[derive(Drop)]
pub struct NetworkState {
    /// The links, by slot.
    pub links: Vec<LinkState>,
    /// How many places of each link are taken, and when those that were left come free.
    pub places: Places,
    /// The second in which each link is woken, by slot.
    pub link_wakes: Wakes,
    /// The second in which each node is woken, by number.
    pub node_wakes: Wakes,
}
