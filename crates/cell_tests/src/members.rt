// What the tests know a port and a board by. Their functions are read for tests alone, so that each is proved once.
use crate::numbers::Numbers;
use cells::{Board, Hub, Port};

/// What a test counts of a port, by itself.
#[derive(Clone, Copy, Drop)]
pub(crate) struct Tally {
    /// The seconds done.
    pub(crate) seconds: u32,
    /// How often something was taken, a parcel or none.
    pub(crate) taken: u64,
    /// How often it was not the right one.
    pub(crate) wrong: u64,
    /// The last parcel taken, and 0 before the first.
    pub(crate) last: u64,
}

/// A port and its tally.
#[derive(Drop)]
pub(crate) struct Member {
    pub(crate) port: Port<Numbers>,
    pub(crate) tally: Tally,
    /// Whether it looked at nobody since it last published, so that it holds nothing and may be joined.
    pub(crate) is_resting: bool,
}

/// A board, its hub, the number of its partitions, and its ports as members.
#[derive(Drop)]
pub(crate) struct Trial {
    pub(crate) board: Board<Numbers>,
    pub(crate) hub: Hub<Numbers>,
    pub(crate) count: u32,
    pub(crate) members: Vec<Member>,
}
