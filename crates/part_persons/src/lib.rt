//! The persons of a day, or those of a part of its network. Each is looked at in a second in which an activity or a teleported leg of his
//! ends: the phases in which persons land and leave and departures start, exactly those of `traffic`. Persons come from another part and go
//! to another one.
#![tactic(auto)]

mod departures;
mod dues;
mod hearing;
mod homes;
mod moving;
mod persons;
mod phases;
mod turns;

pub use departures::departures_by_second;
pub use persons::Persons;
pub use phases::EarlyPhase;
pub use turns::PhaseTurn;
