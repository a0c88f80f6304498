ghost use Rattle.std.specs.Prelude.{◌≡◌, IfOk};

use crate::stage::Stage;
use crate::vehicle::Vehicle;
use events::{Rows, VehicleId};
use std::alloc::AllocError;

/// Where a vehicle stands, and the second that its stage gives a meaning to.
#[derive(Drop)]
pub struct Row {
    pub vehicle: Vehicle,
    pub link: u32,
    pub stage: Stage,
    pub second: u32,
}

impl Row {
    /// The same row.
    pub fn try_clone(&self) -> Result<Row, AllocError>
        ensures { IfOk result (λ copy. copy ≡ self.now) }
    {
        let vehicle = self.vehicle.try_clone()?;
        Ok(Row {
            vehicle,
            link: self.link,
            stage: self.stage,
            second: self.second,
        })
    }
}

/// Rows, in order.
pub type RowList = Rows<Row>;

/// A place in the queue of a link that was left in this second.
#[derive(Clone, Copy, Debug, PartialEq, Eq)]
pub struct Hole {
    pub link: u32,
    pub second: u32,
}

/// Where a person is.
#[derive(Clone, Copy, Debug, PartialEq, Eq)]
pub enum Place {
    /// At an activity that ends at this second, or never.
    At { end: Option<u32> },
    /// On a teleported leg since this second.
    Teleporting { start: u32 },
    /// At this stop since this second.
    Waiting { stop: u32, since: u32 },
    /// In this vehicle.
    Riding { vehicle: VehicleId },
    /// Removed with a vehicle from this link.
    Aborted { link: u32 },
}

/// A person: the element of the plan, where `2k` is activity `k` and `2k + 1` the leg after it, and
/// the place.
#[derive(Clone, Copy, Debug, PartialEq, Eq)]
pub struct Person {
    pub element: u32,
    pub place: Place,
}

/// A person who waits at a stop for a line, until another stop.
#[derive(Clone, Copy, Debug, PartialEq, Eq)]
pub struct Waiter {
    pub person: u32,
    pub stop: u32,
    pub line: u32,
    pub egress: u32,
    /// The kind of the activity after the leg.
    pub kind: u32,
    /// The second since when the person waits.
    pub since: u32,
}
