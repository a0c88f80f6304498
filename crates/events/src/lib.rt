//! Names, numbered lists of names, and the events of a day with their lines.
#![tactic(auto)]

mod event;
mod lists;
mod names;
mod writing;

pub use event::{Book, Event, Key, Mode, More, Phase, VehicleId, Word};
pub use lists::{Calls, EventList, Route, Rows, StopCall};
pub use names::{Added, Name, Names, is_name};
pub use writing::{line, lines};
