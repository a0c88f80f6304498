//! The calls of a vehicle at stops: who alights, who may board, and how long it stands.

ghost use Rattle.std.specs.Prelude.{◌≡◌, ◌+◌, ◌*◌, ◌<◌, ◌≤◌, length, IfOk};
ghost use Rattle.limits.specs.declared.TheConstants.{LAST_SECOND, MAX_DWELL, MAX_PERSONS};
ghost use Rattle.rows.specs.Settings.{IsDwelling};
ghost use Rattle.traffic.specs.Stops.{call_at, next_call, calls_on, alights, staying, may_board, stand, not_before};

use events::StopCall;
use rows::{Dwelling, calls_at};
use std::alloc::{AllocError, Global};
use traffic::{Rider, Vehicle, Waiter};

const NO_CALL: StopCall = StopCall {
    stop: 0,
    link: 0,
    offset: 0,
    wait: false,
};

/// The call of this number.
pub fn call_at(vehicle: &Vehicle, number: u32) -> StopCall
    ensures { result ≡ call_at vehicle.now.calls number }
{
    let number = number as usize;
    if number < vehicle.calls.len() {
        return vehicle.calls.rows[number];
    }
    NO_CALL
}

/// The next unserved call.
pub fn next_call(vehicle: &Vehicle) -> StopCall
    ensures { result ≡ next_call vehicle.now }
{
    call_at(vehicle, vehicle.served)
}

/// Whether the next unserved call lies on this link.
pub fn calls_on(link: u32, vehicle: &Vehicle) -> bool
    ensures { result ≡ calls_on link vehicle.now }
{
    let served = vehicle.served as usize;
    served < vehicle.calls.len() && next_call(vehicle).link == link
}

/// Whether a rider alights at this stop.
pub fn alights(stop: u32, rider: &Rider) -> bool
    ensures { result ≡ alights stop rider.now }
{
    match rider.egress {
        None => false,
        Some(egress) => egress == stop,
    }
}

/// Those who stay in the vehicle.
pub fn staying(alloc: Global, stop: u32, riders: &[Rider]) -> Result<Vec<Rider>, AllocError>
    ensures { IfOk result (λ stay. stay.items ≡ staying stop riders.now) }
{
    let mut stay = Vec::new(alloc);
    let mut rest = riders;
    while let [rider, later @ ..] = rest {
        if !alights(stop, rider) {
            stay.push(*rider)?;
        }
        rest = later;
    }
    Ok(stay)
}

/// Whether who waits may board the vehicle at its next call.
pub fn may_board(vehicle: &Vehicle, waiter: &Waiter) -> bool
    requires { vehicle.now.served < length vehicle.now.calls }
    ensures { result ≡ may_board vehicle.now waiter.now }
{
    let served = vehicle.served as usize;
    waiter.stop == next_call(vehicle).stop
        && waiter.line == vehicle.line
        && calls_at(waiter.egress, &vehicle.calls.rows[served + 1..])
}

/// The seconds that a vehicle stands.
pub fn stand(dwell: &Dwelling, alighted: u32, boarded: u32) -> u32
    requires dwell_in { IsDwelling dwell.now }
    requires few_alighted { alighted ≤ MAX_PERSONS }
    requires few_boarded { boarded ≤ MAX_PERSONS }
    ensures value { result ≡ stand dwell.now alighted boarded }
    ensures small { result ≤ MAX_DWELL * (1 + 2 * MAX_PERSONS) }
{
    (dwell.per_stop + dwell.per_alight * alighted + dwell.per_board * boarded).max(1)
}

/// The second in which a vehicle with this call may go on.
pub fn not_before(call: StopCall, departed: u32, second: u32) -> u32
    requires departed_in { departed ≤ LAST_SECOND }
    requires offset_in { call.offset ≤ LAST_SECOND }
    ensures { result ≡ not_before call departed second }
{
    if call.wait {
        return second.max(departed + call.offset);
    }
    second
}
