//! The limits that every file, every setting and every call keeps, each once. Clauses and definitions cite them by name.
//!
//! Lengths are in centimetres, speeds in centimetres a second, capacities in vehicles an hour, and factors in permille. The
//! tables of docs/PROFILE.md have the same numbers beside each file.
#![tactic(auto)]

/// The last second that a file or a setting may name: a day and what follows it end within two days.
pub const LAST_SECOND: u32 = 172_800;

/// The most bytes of a file.
pub const MAX_FILE_BYTES: usize = 1 << 28;

/// The farthest that a node lies from the origin, along either axis, in centimetres.
pub const MAX_COORDINATE: u32 = 1_000_000_000;

/// The most nodes.
pub const MAX_NODES: u32 = 131_072;

/// The most links.
pub const MAX_LINKS: u32 = 262_144;

/// The most links into a node.
pub const MAX_IN_LINKS: u8 = 16;

/// The longest link, in centimetres.
pub const MAX_LENGTH: u32 = 10_000_000;

/// The highest free speed of a link, and of a hole, in centimetres a second.
pub const MAX_SPEED: u32 = 10_000;

/// The largest capacity of a link, in vehicles an hour.
pub const MAX_CAPACITY: u32 = 100_000;

/// The most lanes of a link.
pub const MAX_LANES: u32 = 20;

/// The largest factor on flow or storage, in permille.
pub const MAX_PERMILLE: u32 = 2_000;

/// The most persons.
pub const MAX_PERSONS: u32 = 65_536;

/// The most plans of a person in a file.
pub const MAX_PLANS: u32 = 5;

/// The most legs of a plan.
pub const MAX_LEGS: usize = 8;

/// The most links of a route, of a car or of a line.
pub const MAX_ROUTE_LINKS: usize = 1_000;

/// The most stops.
pub const MAX_STOPS: u32 = 16_384;

/// The most routes of lines.
pub const MAX_ROUTES: u32 = 4_096;

/// The most stop calls of a route.
pub const MAX_CALLS: usize = 200;

/// The most departures.
pub const MAX_DEPARTURES: u32 = 65_536;

/// The most seats of a departure.
pub const MAX_SEATS: u32 = 1_000;

/// The longest that a vehicle stands at a stop for one of its three reasons, in seconds.
pub const MAX_DWELL: u32 = 3_600;

/// The longest cycle of a signal, in seconds.
pub const MAX_CYCLE: u32 = 3_600;

/// The most spans of a signal.
pub const MAX_SPANS: usize = 32;

/// The most conflicts of signals.
pub const MAX_CONFLICTS: usize = 65_536;

/// The most partitions of a network, and the most workers that run them.
pub const MAX_PARTITIONS: u32 = 64;

/// The longest lag (lookahead) from a partition to its neighbour, in seconds.
pub const MAX_LAG: u32 = 32;
