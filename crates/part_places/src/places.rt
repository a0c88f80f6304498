use calendar::Calendar;
use node_move::Space;

/// The places of links: how many of each are taken, by its rows and by holes, how many holes those are, and in each second the links on
/// which a place comes free in it, once for each place.
#[derive(Drop)]
pub struct Places {
    /// How many places of each link are taken, and how many of these were left and are not free yet.
    pub space: Space,
    /// The links of each second.
    pub freed: Calendar,
}
