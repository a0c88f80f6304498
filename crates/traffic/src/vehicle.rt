ghost use Rattle.std.specs.Prelude.{◌≡◌, IfOk};

use crate::riders::Riders;
use events::{Calls, Route, VehicleId};
use std::alloc::AllocError;
use std::marker::Model;

/// A vehicle, wherever it stands: the car of a person, or the vehicle of a departure. Its place is
/// one of its route, and it has served no more calls than it has.
#[derive(Drop)]
pub struct Vehicle {
    pub id: VehicleId,
    /// The links that it drives along.
    pub route: Route,
    /// The place of its link among them.
    pub place: u32,
    /// It has entered traffic.
    pub started: bool,
    pub riders: Riders,
    /// The line, which of a car is 0.
    pub line: u32,
    /// The calls at stops, of which a car has none.
    pub calls: Calls,
    /// How many of them it has served.
    pub served: u32,
    /// The second of its departure, which of a car is 0.
    pub departed: u32,
    /// How many may ride, which of a car is 0.
    pub seats: u32,
    /// It was pushed into its queue past the storage.
    pub pushed: bool,
}

impl Model for Vehicle {
    ghost use Rattle.traffic.specs.{VehicleViews.vehicle_view, VehicleViews.vehicle_invariant, Vehicles.VehicleState};

    ghost Value = { VehicleState };

    ghost view = { vehicle_view };

    ghost invariant = { vehicle_invariant };
}

impl Vehicle {
    /// The same vehicle.
    pub fn try_clone(&self) -> Result<Vehicle, AllocError>
        ensures { IfOk result (λ copy. copy ≡ self.now) }
    {
        let route = self.route.try_clone()?;
        let riders = self.riders.try_clone()?;
        let calls = self.calls.try_clone()?;
        Ok(Vehicle {
            id: self.id,
            route,
            place: self.place,
            started: self.started,
            riders,
            line: self.line,
            calls,
            served: self.served,
            departed: self.departed,
            seats: self.seats,
            pushed: self.pushed,
        })
    }
}
