/// How long a vehicle stands at a stop, in seconds: in any case, and for each who alights and who
/// boards.
#[derive(Clone, Copy, Debug, PartialEq, Eq)]
pub struct Dwelling {
    pub per_stop: u32,
    pub per_alight: u32,
    pub per_board: u32,
}

/// After how many seconds at the front a vehicle is stuck, and whether it is then pushed in.
#[derive(Clone, Copy, Debug, PartialEq, Eq)]
pub struct Stuck {
    pub seconds: u32,
    pub push: bool,
}

/// The settings of a day's traffic; docs/PROFILE.md has the key of settings.json for each.
#[derive(Clone, Copy, Debug, PartialEq, Eq)]
pub struct TrafficSettings {
    /// The second at which the day is over, 1 to `LAST_SECOND`.
    pub end_second: u32,
    /// What a link's capacity is multiplied by, in thousandths, 1 to `MAX_PERMILLE`.
    pub flow_permille: u32,
    /// What a link's storage is multiplied by, in thousandths, 1 to `MAX_PERMILLE`.
    pub storage_permille: u32,
    /// When a vehicle at the front of a buffer is stuck, after 1 to `LAST_SECOND` seconds.
    pub stuck: Stuck,
    /// How fast a free place travels upstream, in cm/s, 1 to `MAX_SPEED`. Without it a place is free after a second.
    pub hole_speed: Option<u32>,
    /// How long a vehicle stands at a stop, each at most `MAX_DWELL` seconds.
    pub dwell: Dwelling,
}
