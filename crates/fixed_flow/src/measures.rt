ghost use Rattle.std.specs.Prelude.{◌≡◌, ◌<◌, ◌≤◌};
ghost use Rattle.fixed_flow.specs.Link.{free_seconds, credit_per_second, storage, buffer_room};

use crate::{CELL_PERMILLE, MAX_PER_SECOND, VEHICLE_COST};
use limits::{MAX_CAPACITY, MAX_LANES, MAX_LENGTH, MAX_PERMILLE};

/// The seconds that a link takes at its free speed, at least one.
#[tactic(auto, unfolding(crate::specs::Link::free_seconds))]
pub fn free_seconds(length: u32, speed: u32) -> u32
    requires { 0 < speed }
    ensures value { result ≡ free_seconds length speed }
    ensures least { 1 ≤ result }
    ensures most { 1 ≤ length → result ≤ length }
{
    (length / speed).max(1)
}

/// The gain of a second, in units of credit.
#[tactic(auto, unfolding(crate::specs::Link::credit_per_second))]
pub fn credit_per_second(capacity: u32, flow_permille: u32) -> u32
    requires capacity_in { capacity ≤ MAX_CAPACITY }
    requires permille_in { flow_permille ≤ MAX_PERMILLE }
    ensures value { result ≡ credit_per_second capacity flow_permille }
    ensures most { result ≤ MAX_PER_SECOND }
{
    capacity * flow_permille
}

/// How many vehicles the queue of a link holds, which takes `seconds` at its free speed and gains
/// `per_second` units of credit in each.
#[tactic(auto, unfolding(crate::specs::Link::storage))]
pub fn storage(length: u32, lanes: u32, storage_permille: u32, seconds: u32, per_second: u32) -> u32
    requires length_in { length ≤ MAX_LENGTH }
    requires lanes_in { lanes ≤ MAX_LANES }
    requires permille_in { storage_permille ≤ MAX_PERMILLE }
    requires seconds_in { seconds ≤ MAX_LENGTH }
    requires per_second_in { per_second ≤ MAX_PER_SECOND }
    ensures value { result ≡ storage length lanes storage_permille seconds per_second }
    ensures least { 1 ≤ result }
{
    let space = u64::from(length) * u64::from(lanes) * u64::from(storage_permille) / CELL_PERMILLE;
    let flow = (u64::from(seconds) * u64::from(per_second)).div_ceil(u64::from(VEHICLE_COST));
    space.max(flow).max(1) as u32
}

/// How many vehicles the buffer of a link holds, which gains `per_second` units of credit a second.
#[tactic(auto, unfolding(crate::specs::Link::buffer_room))]
pub fn buffer_room(per_second: u32) -> u32
    ensures value { result ≡ buffer_room per_second }
    ensures least { 1 ≤ result }
{
    per_second.div_ceil(VEHICLE_COST).max(1)
}
