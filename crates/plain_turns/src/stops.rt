//! The service of a stop.

ghost use Rattle.std.specs.Prelude.{◌≡◌, ◌<◌, ◌≤◌, ◌+◌, ◌*◌, ◌++◌, true, length, map, filter, not, OnOk, IfOk};
ghost use Rattle.std.specs.List.{list_any};
ghost use Rattle.limits.specs.declared.TheConstants.{LAST_SECOND};
ghost use Rattle.traffic.specs.Stops.{next_call, alights, alighting, staying, may_board, in_turn, boarding, is_person};
ghost use Rattle.traffic.specs.Stops.{left_behind, rider, stand, not_before, served_row};
ghost use Rattle.rows.specs.Settings.{IsDwelling};
ghost use Rattle.plain_turns.specs.Limits.{IsSmall};

use rows::Dwelling;
use std::alloc::{AllocError, Global};
use traffic::{Rider, Riders, Row, Stage, Vehicle, Waiter};
use vehicles::{alights, may_board, next_call, not_before, stand, staying};

/// How many alight.
fn count_alighting(stop: u32, riders: &[Rider]) -> usize
    ensures value { result ≡ length (alighting stop riders.now) }
    ensures few { result ≤ length riders.now }
{
    riders.iter().filter(|rider| alights(stop, rider)).count()
}

/// Those who wait, in the order in which they come. The sort keeps the order of equal keys, and the definition turns it
/// round: so the last one goes in first.
fn in_turn(waiters: Vec<Waiter>) -> Result<Vec<Waiter>, AllocError>
    ensures { IfOk result (λ sorted. sorted.items ≡ in_turn waiters.items) }
{
    let mut sorted = waiters;
    sorted.reverse();
    sorted.sort_by_key(|waiter| (waiter.since, waiter.person))?;
    Ok(sorted)
}

/// Those who may board.
fn boarding_here(
    alloc: Global,
    vehicle: &Vehicle,
    waiters: &[Waiter],
) -> Result<Vec<Waiter>, AllocError>
    requires { vehicle.now.served < length vehicle.now.calls }
    ensures { IfOk result (λ here. here.items ≡ filter (may_board vehicle.now) waiters.now) }
{
    let mut here = Vec::new(alloc);
    let mut rest = waiters;
    while let [waiter, later @ ..] = rest {
        if may_board(vehicle, waiter) {
            here.push(*waiter)?;
        }
        rest = later;
    }
    Ok(here)
}

/// Those who board: the first ones of them, while there are seats.
#[tactic(auto, unfolding(traffic::specs::Stops::boarding))]
fn boarding(alloc: Global, vehicle: &Vehicle, waiters: &[Waiter]) -> Result<Vec<Waiter>, AllocError>
    requires { vehicle.now.served < length vehicle.now.calls }
    ensures value { IfOk result (λ boards. boards.items ≡ boarding vehicle.now waiters.now) }
    ensures few { IfOk result (λ boards. length boards.items ≤ vehicle.now.seats) }
{
    let stay = staying(alloc, next_call(vehicle).stop, &vehicle.riders.rows)?;
    let here = boarding_here(alloc, vehicle, waiters)?;
    let mut boards = in_turn(here)?;
    boards.truncate((vehicle.seats as usize).saturating_sub(stay.len()));
    Ok(boards)
}

fn is_among(person: u32, waiters: &[Waiter]) -> bool
    ensures { result ≡ list_any (is_person person) waiters.now }
{
    waiters.iter().any(|waiter| waiter.person == person)
}

/// Those who do not board.
fn not_among(
    alloc: Global,
    boards: &[Waiter],
    waiters: &[Waiter],
) -> Result<Vec<Waiter>, AllocError>
    ensures { IfOk result (λ left. left.items ≡ filter (λ w. not (list_any (is_person w.person) boards.now)) waiters.now) }
{
    let mut left = Vec::new(alloc);
    let mut rest = waiters;
    while let [waiter, later @ ..] = rest {
        if !is_among(waiter.person, boards) {
            left.push(*waiter)?;
        }
        rest = later;
    }
    Ok(left)
}

/// Appends those who board as riders.
fn push_riders(waiters: &[Waiter], riders: &mut Vec<Rider>) -> Result<(), AllocError>
    ensures { OnOk result (riders.new.items ≡ riders.old.items ++ map rider waiters.now) }
{
    let mut rest = waiters;
    while let [waiter, later @ ..] = rest {
        riders.push(Rider {
            person: waiter.person,
            egress: Some(waiter.egress),
            kind: waiter.kind,
        })?;
        rest = later;
    }
    Ok(())
}

/// The riders after the stop, where these board.
fn riders_with(
    alloc: Global,
    vehicle: &Vehicle,
    boards: &[Waiter],
) -> Result<Vec<Rider>, AllocError>
    ensures { IfOk result (λ riders. riders.items
        ≡ staying (next_call vehicle.now).stop vehicle.now.riders ++ map rider boards.now) }
{
    let mut riders = staying(alloc, next_call(vehicle).stop, &vehicle.riders.rows)?;
    push_riders(boards, &mut riders)?;
    Ok(riders)
}

/// The second in which the vehicle, served in this second, may go on, where so many board.
fn stays_until(dwell: &Dwelling, second: u32, vehicle: &Vehicle, boarded: usize) -> u32
    requires dwell_in { IsDwelling dwell.now }
    requires second_in { second < LAST_SECOND }
    requires small { IsSmall vehicle.now }
    requires few { boarded ≤ vehicle.now.seats }
    ensures { result ≡ not_before (next_call vehicle.now) vehicle.now.departed
        (second + stand dwell.now (length (alighting (next_call vehicle.now).stop vehicle.now.riders)) boarded) }
{
    let call = next_call(vehicle);
    let alighted = count_alighting(call.stop, &vehicle.riders.rows);
    let served = second + stand(dwell, alighted as u32, boarded as u32);
    not_before(call, vehicle.departed, served)
}

/// The vehicle after its next call is served, with these riders.
fn served_with(vehicle: &Vehicle, riders: Vec<Rider>) -> Result<Vehicle, AllocError>
    requires small { IsSmall vehicle.now }
    requires calls { vehicle.now.served < length vehicle.now.calls }
    ensures { IfOk result (λ after. after
        ≡ record vehicle.now { started = true; riders = riders.items; served = vehicle.now.served + 1 }) }
{
    let mut after = vehicle.try_clone()?;
    after.started = true;
    after.riders = Riders { rows: riders };
    after.served += 1;
    Ok(after)
}

/// A vehicle is served at its next call.
#[derive(Drop)]
pub struct Service {
    /// Its row in the bay of its link from then on.
    pub row: Row,
    /// Those who do not board it.
    pub left: Vec<Waiter>,
}

/// Serves a vehicle at its next call, on link `l` in this second.
#[tactic(auto, unfolding(traffic::specs::Stops::riders_after, traffic::specs::Stops::stays_until, traffic::specs::Stops::served_vehicle))]
pub fn serve(
    alloc: Global,
    dwell: &Dwelling,
    second: u32,
    l: u32,
    waiters: &[Waiter],
    vehicle: &Vehicle,
) -> Result<Service, AllocError>
    requires dwell_in { IsDwelling dwell.now }
    requires second_in { second < LAST_SECOND }
    requires small { IsSmall vehicle.now }
    requires calls { vehicle.now.served < length vehicle.now.calls }
    ensures row { IfOk result (λ service. service.row ≡ served_row dwell.now second l waiters.now vehicle.now) }
    ensures left { IfOk result (λ service. service.left.items ≡ left_behind vehicle.now waiters.now) }
{
    let boards = boarding(alloc, vehicle, waiters)?;
    let until = stays_until(dwell, second, vehicle, boards.len());
    let riders = riders_with(alloc, vehicle, &boards)?;
    let after = served_with(vehicle, riders)?;
    let left = not_among(alloc, &boards, waiters)?;
    let row = Row {
        vehicle: after,
        link: l,
        stage: Stage::Bay,
        second: until,
    };
    Ok(Service { row, left })
}
