//! The service of a vehicle at a stop.

ghost use Rattle.std.specs.{List.list_any, Prelude.◌≡◌, Prelude.◌+◌, Prelude.◌<◌, Prelude.◌≤◌};
ghost use Rattle.std.specs.Prelude.{◌++◌, [], ◌∷◌, length, filter, map, take, true, ◌==◌, ◌&&◌, nat_lt, OnOk, IfOk};
ghost use Rattle.limits.specs.declared.TheConstants.{LAST_SECOND, MAX_CALLS, MAX_PERSONS};
ghost use Rattle.rows.specs.Settings.{IsDwelling};
ghost use Rattle.traffic.specs.Stops.{next_call, alighting, staying, may_board, boarding, left_behind, rider, served_vehicle, served_row};
ghost use Rattle.traffic.specs.{Stops.stays_until, Telling.serves};
ghost use Rattle.riders.specs.{Serving.left_over, Serving.stopping, Waiting.NobodyIs, Waiting.AllBefore};

use crate::waiting::Waiting;
use events::{More, Word};
use rows::Dwelling;
use std::alloc::{AllocError, Global};
use traffic::{Occurrence, Rider, Riders, Vehicle, Waiter};
use vehicles::{
    alights, may_board, next_call, not_before, of_vehicle, push_all_enter, push_all_leave, stand,
};

/// What a service came to.
#[derive(Drop)]
pub struct Served {
    /// Those who left the vehicle, in the order in which they rode.
    pub alighted: Riders,
    /// Those who entered it, in the order in which they came.
    pub boarded: Riders,
    /// The second in which the vehicle may go on.
    pub until: u32,
}

/// The riders of a vehicle, parted.
#[derive(Drop)]
struct Parted {
    alighted: Vec<Rider>,
    staying: Vec<Rider>,
}

/// Parts riders into those who alight at a stop and those who stay.
fn part_riders(alloc: Global, stop: u32, riders: &[Rider]) -> Result<Parted, AllocError>
    ensures alighted { IfOk result (λ parted. parted.alighted.items ≡ alighting stop riders.now) }
    ensures staying { IfOk result (λ parted. parted.staying.items ≡ staying stop riders.now) }
    ensures few { IfOk result (λ parted. length parted.alighted.items ≤ length riders.now) }
{
    let mut alighted = Vec::new(alloc);
    let mut staying = Vec::new(alloc);
    for rider in riders {
        if alights(stop, rider) {
            alighted.push(*rider)?;
        } else {
            staying.push(*rider)?;
        }
    }
    Ok(Parted { alighted, staying })
}

/// Who waited, as a rider.
fn as_rider(waiter: &Waiter) -> Rider
    ensures { result ≡ rider waiter.now }
{
    Rider {
        person: waiter.person,
        egress: Some(waiter.egress),
        kind: waiter.kind,
    }
}

/// Of those who wait, some who may board, and the others.
#[derive(Drop)]
struct Boarding {
    boarded: Vec<Rider>,
    left: Vec<Waiter>,
}

/// Whether there is a seat, and who waits may board.
fn takes_seat(vehicle: &Vehicle, seats: usize, waiter: &Waiter) -> bool
    requires { vehicle.now.served < length vehicle.now.calls }
    ensures { result ≡ (nat_lt 0 seats && may_board vehicle.now waiter.now) }
{
    seats > 0 && may_board(vehicle, waiter)
}

/// While there are so many seats, those who may board do; the others are left.
fn board(
    alloc: Global,
    vehicle: &Vehicle,
    seats: usize,
    waiters: &[Waiter],
) -> Result<Boarding, AllocError>
    requires { vehicle.now.served < length vehicle.now.calls }
    ensures boarded { IfOk result (λ all. all.boarded.items ≡ map rider (take seats (filter (may_board vehicle.now) waiters.now))) }
    ensures left { IfOk result (λ all. all.left.items ≡ left_over seats (may_board vehicle.now) waiters.now) }
    ensures few { IfOk result (λ all. length all.boarded.items ≤ length waiters.now) }
{
    let mut boarded = Vec::new(alloc);
    let mut left = Vec::new(alloc);
    let mut seats = seats;
    for waiter in waiters {
        if takes_seat(vehicle, seats, waiter) {
            boarded.push(as_rider(waiter))?;
            seats -= 1;
        } else {
            left.push(*waiter)?;
        }
    }
    Ok(Boarding { boarded, left })
}

/// Whether anybody of those who wait may board.
fn anybody_may_board(vehicle: &Vehicle, waiters: &[Waiter]) -> bool
    requires { vehicle.now.served < length vehicle.now.calls }
    ensures { result ≡ list_any (may_board vehicle.now) waiters.now }
{
    waiters.iter().any(|waiter| may_board(vehicle, waiter))
}

/// Whether anybody takes a seat: there is one, and somebody may board.
fn anybody_boards(vehicle: &Vehicle, seats: usize, waiters: &[Waiter]) -> bool
    requires { vehicle.now.served < length vehicle.now.calls }
    ensures { result ≡ (nat_lt 0 seats && list_any (may_board vehicle.now) waiters.now) }
{
    seats > 0 && anybody_may_board(vehicle, waiters)
}

/// A vehicle has these riders from now on, and has served one call more.
fn seat_riders(
    vehicle: &mut Vehicle,
    staying: Vec<Rider>,
    boarded: &[Rider],
) -> Result<(), AllocError>
    requires calls { vehicle.old.served < length vehicle.old.calls }
    requires few_calls { length vehicle.old.calls ≤ MAX_CALLS }
    ensures { OnOk result (vehicle.new ≡ record vehicle.old {
      started = true;
      riders = staying.items ++ boarded.now;
      served = vehicle.old.served + 1;
    }) }
{
    let mut riders = staying;
    riders.extend_from_slice(boarded)?;
    vehicle.riders = Riders { rows: riders };
    vehicle.started = true;
    vehicle.served += 1;
    Ok(())
}

impl Waiting {
    /// Nobody waits yet.
    pub fn new(alloc: Global) -> Waiting
        ensures { result ≡ [] }
    {
        Waiting {
            rows: Vec::new(alloc),
        }
    }

    /// Somebody comes, behind all who wait.
    ///
    /// # Errors
    ///
    /// `AllocError`: there is no memory for one more.
    pub fn come(&mut self, waiter: Waiter) -> Result<(), AllocError>
        requires other { NobodyIs waiter.person self.old }
        requires later { AllBefore self.old waiter }
        ensures { OnOk result (self.new ≡ self.old ++ waiter ∷ []) }
    {
        self.rows.push(waiter)?;
        Ok(())
    }

    /// How many wait.
    pub fn len(&self) -> usize
        ensures { result ≡ length self.now }
    {
        self.rows.len()
    }

    /// Whether nobody waits.
    pub fn is_empty(&self) -> bool
        ensures { result ≡ (length self.now == 0) }
    {
        self.rows.is_empty()
    }

    /// Those who board a vehicle in which so many stay do not wait any more. Nobody is copied where nobody boards.
    fn take_boarding(&mut self, vehicle: &Vehicle, stay: usize) -> Result<Vec<Rider>, AllocError>
        requires calls { vehicle.now.served < length vehicle.now.calls }
        requires count { stay ≡ length (staying (next_call vehicle.now).stop vehicle.now.riders) }
        ensures boarded { IfOk result (λ boarded. boarded.items ≡ map rider (boarding vehicle.now self.old)) }
        ensures left { OnOk result (self.new ≡ left_behind vehicle.now self.old) }
        ensures few { IfOk result (λ boarded. length boarded.items ≤ length self.old) }
    {
        let alloc = *self.rows.allocator();
        let seats = (vehicle.seats as usize).saturating_sub(stay);
        if !anybody_boards(vehicle, seats, &self.rows) {
            return Ok(Vec::new(alloc));
        }
        let all = board(alloc, vehicle, seats, &self.rows)?;
        self.rows = all.left;
        Ok(all.boarded)
    }

    /// Serves a vehicle at its next call, on this link in this second: its riders alight whose stop it is, then board those who wait here
    /// and may, while there are seats, and it has served the call. Appends what that tells.
    ///
    /// # Errors
    ///
    /// `AllocError`: there is no memory for a rider, one who waits, or an event. The vehicle and those who wait are then of no use.
    #[tactic(auto, unfolding(traffic::specs::Stops::served_vehicle, traffic::specs::Stops::riders_after))]
    pub fn serve(
        &mut self,
        second: u32,
        link: u32,
        dwell: &Dwelling,
        vehicle: &mut Vehicle,
        said: &mut Vec<Occurrence>,
    ) -> Result<Served, AllocError>
        requires second_in { second < LAST_SECOND }
        requires dwell_in { IsDwelling dwell.now }
        requires calls { vehicle.old.served < length vehicle.old.calls }
        requires few_calls { length vehicle.old.calls ≤ MAX_CALLS }
        requires departed { vehicle.old.departed ≤ LAST_SECOND }
        requires offset { (next_call vehicle.old).offset ≤ LAST_SECOND }
        requires few_riders { length vehicle.old.riders ≤ MAX_PERSONS }
        requires few_waiters { length self.old ≤ MAX_PERSONS }
        ensures vehicle { OnOk result (vehicle.new ≡ served_vehicle vehicle.old self.old) }
        ensures until { IfOk result (λ served. served.until ≡ stays_until dwell.now second vehicle.old self.old) }
        ensures alighted { IfOk result (λ served. served.alighted ≡ alighting (next_call vehicle.old).stop vehicle.old.riders) }
        ensures boarded { IfOk result (λ served. served.boarded ≡ map rider (boarding vehicle.old self.old)) }
        ensures left { OnOk result (self.new ≡ left_behind vehicle.old self.old) }
        ensures told { OnOk result (said.new.items ≡ said.old.items
            ++ serves (stopping link vehicle.old) (served_row dwell.now second link self.old vehicle.old)) }
    {
        let alloc = *self.rows.allocator();
        let id = vehicle.id;
        let call = next_call(vehicle);
        let parted = part_riders(alloc, call.stop, &vehicle.riders.rows)?;
        let boarded = self.take_boarding(vehicle, parted.staying.len())?;
        said.push(of_vehicle(
            Word::VehicleArrivesAtFacility,
            id,
            link,
            More::Stop(call.stop),
        ))?;
        push_all_leave(id, link, &parted.alighted, said)?;
        push_all_enter(id, &boarded, said)?;
        let stands = stand(dwell, parted.alighted.len() as u32, boarded.len() as u32);
        let until = not_before(call, vehicle.departed, second + stands);
        seat_riders(vehicle, parted.staying, &boarded)?;
        Ok(Served {
            alighted: Riders {
                rows: parted.alighted,
            },
            boarded: Riders { rows: boarded },
            until,
        })
    }
}
