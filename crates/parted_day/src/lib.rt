//! The day of a town in partitions, by one worker or by several: its network is divided, the parts step to the end of the day, and what
//! they told is merged. It is the undivided day, whatever the numbers of both.
//!
//! A part begins the day with those who are on its links, and with no vehicle. Before a second it absorbs what its neighbours sent:
//! vehicles come to the queues of its links, persons to those whom it has, and word of the places that vehicles left on links that begin
//! in it. In the second its persons, departures, nodes and links have their turns, and behind it what goes to neighbours is sent. Nothing
//! of another part is read. At the end of the day who is under way is stuck: those whom the part has, and those on the way to others,
//! whose day ends before they come.
#![tactic(auto)]

mod absorbing;
mod absorbing_parcel;
mod beginnings;
mod days;
mod ends;
mod links;
mod loads;
mod neighbours;
mod part;
mod quiet;
mod riding;
mod runs;
mod straying;
mod threads;
mod turns;

pub use beginnings::begin;
pub use days::day_in_parts;
pub use part::TownPart;
pub use part_seconds::{Parcel, Run};
pub use runs::{Shared, run_of, share};
