//! Laws of journeys, in every second of every day. Each is the contract of a call that does nothing.
#![tactic(auto)]

ghost use Rattle.std.specs.Prelude.{ℕ, ◌<◌, length};
ghost use Rattle.events.specs.declared.event.VehicleId.{VehicleId};
ghost use Rattle.traffic.specs.Setup.{Setup};
ghost use Rattle.law_journeys.specs.Journeys.{KeepsSeats, IsFirstInFirstOut, KeepsFreeFlow, IsContinuous, IsConserved, EndAsPlanned, WaitsAtStops, KeepsJourneys};

/// The only rider of a car is its driver, and a transit vehicle has no more riders than seats.
pub fn riders_have_seats()
    ensures { (S : Setup) (t : ℕ) → KeepsSeats S t }
{}

/// The queue of a link is first in, first out, and no vehicle leaves it before its free-flow seconds are over.
pub fn queues_are_first_in_first_out()
    ensures { (S : Setup) (l t n : ℕ) → IsFirstInFirstOut S l t n }
{}

/// After a vehicle entered a link, no event names it on this link before the free-flow seconds of the link are over.
pub fn vehicles_take_their_time()
    ensures { (S : Setup) → KeepsFreeFlow S }
{}

/// A vehicle joins a link from one that ends where this one begins, or where its own journey begins.
pub fn links_gain_over_nodes()
    ensures { (S : Setup) → IsContinuous S }
{}

/// A vehicle has set out as often as it is under way, has arrived and was removed. It is in at most one place, and it has
/// joined each link as often as it drives there and has left it.
pub fn vehicles_are_conserved()
    ensures { (S : Setup) (t : ℕ) (v : VehicleId) → IsConserved S t v }
{}

/// An activity ends in the second that the plan gives, but not before the second after it began.
pub fn activities_end_as_planned()
    ensures { (S : Setup) (i : ℕ) → i < length S.persons → EndAsPlanned S i }
{}

/// A transit vehicle departs from a stop only at a call at which it arrived, when its dwell time is over, and, if the call
/// says wait, no earlier than scheduled.
pub fn buses_wait_at_stops()
    ensures { (S : Setup) (d : ℕ) → WaitsAtStops S d }
{}

/// Every day keeps all of these laws.
pub fn days_keep_journeys()
    ensures { (S : Setup) → KeepsJourneys S }
{}
