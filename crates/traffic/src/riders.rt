use events::Rows;

/// A person in a vehicle.
#[derive(Clone, Copy, Debug, PartialEq, Eq)]
pub struct Rider {
    pub person: u32,
    /// The stop at which the rider alights, which is none in a car.
    pub egress: Option<u32>,
    /// The kind of the activity after the leg.
    pub kind: u32,
}

/// The persons in a vehicle, in the order in which they boarded.
pub type Riders = Rows<Rider>;
