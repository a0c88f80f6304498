//! The files of a generated scenario: a grid of roads with a bus line, and persons who go to work and back.
//!
//! docs/PROFILE.md states what stands in them. Distances are in centimetres, speeds in centimetres a second, times in seconds.
#![tactic(auto)]

mod commuters;
mod grid;
mod links;
mod persons;
mod roads;
mod schedule;
mod settings;

pub use grid::{Grid, file_text};

/// The least size of a grid.
pub const LEAST_SIZE: u32 = 3;

/// The largest size of a grid.
pub const MOST_SIZE: u32 = 100;

/// How far a node is from the one beside it.
pub const NODE_DISTANCE: u32 = 30_000;

/// The free speed of every link.
pub const FREE_SPEED: u32 = 1_389;

/// The capacity of every link, in vehicles an hour.
pub const LINK_CAPACITY: u32 = 1_000;

/// How many persons there are for each node.
pub const PERSONS_PER_NODE: u32 = 5;

/// The first second in which somebody may leave home.
pub const FIRST_LEAVING: u32 = 21_600;

/// In how many seconds from then on everybody has left.
pub const LEAVING_SPAN: u32 = 7_200;

/// How long everybody works.
pub const WORK_SECONDS: u32 = 28_800;

/// How long a walk takes.
pub const WALK_SECONDS: u32 = 1_200;

/// How long the bus takes from a stop to the next, by its timetable.
pub const STOP_SECONDS: u32 = 60;

/// When the first bus departs.
pub const FIRST_DEPARTURE: u32 = 21_600;

/// After how many seconds the next bus departs.
pub const DEPARTURE_GAP: u32 = 600;

/// How many buses depart, the last one in second 72,000.
pub const DEPARTURES: u32 = 85;

/// The seats of a bus.
pub const SEATS: u32 = 50;
