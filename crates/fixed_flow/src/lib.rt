//! The numbers of a link, and the credit that its vehicles pay to leave its queue: whole numbers.
//!
//! Lengths are in centimetres, speeds in centimetres a second, capacities in vehicles an hour, and
//! factors in permille. Credit is counted in units of which a vehicle costs [`VEHICLE_COST`], so
//! that a second's gain, the capacity times the flow factor, is a whole number of them.
#![tactic(auto)]

mod credits;
mod measures;
#[cfg(test)]
mod tests;

pub use credits::{Credit, most_passing, raised_credit};
pub use measures::{buffer_room, credit_per_second, free_seconds, storage};

/// What a vehicle costs, in units of credit: a second's gain at one vehicle an hour and a factor of
/// one thousand is a thousand of them, and an hour has 3,600 seconds.
pub const VEHICLE_COST: u32 = 3_600_000;

/// The room of one vehicle on one lane, 750 cm, for a storage factor in permille.
pub const CELL_PERMILLE: u64 = 750_000;

/// The largest gain of a second, in units of credit: the largest capacity times the largest factor.
pub const MAX_PER_SECOND: u32 = 200_000_000;
