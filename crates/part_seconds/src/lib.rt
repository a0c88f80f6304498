//! The second of one of several parts of a network: what it does by itself, on what it has once it has absorbed what others sent. Persons,
//! nodes and links sleep until something can happen to them. Nothing of another part is read.
//!
//! And what parts send to one another. Once its second is over, a partition makes a parcel for each neighbour: of the vehicles that its
//! nodes let into the links of others, with the elements of their riders; of the persons whose teleported leg to a link of another begins;
//! and of how many vehicles left the queues of those of its links that begin at nodes of others. Before its second a partition absorbs
//! what came.
#![tactic(auto)]

mod area;
mod arriving;
mod borders;
mod contents;
mod crossing;
mod driving;
mod freed;
mod hearing;
mod leaving;
mod mailbox;
mod runs;
mod sending;
mod setting_out;
mod settling;
mod starting;

pub use area::Area;
pub use arriving::{arrive, link_of};
pub use borders::borders_at;
pub use contents::{
    Contents, FreedList, FreedPlaces, Moved, MovedList, Parcel, Teleported, TeleportedList,
};
pub use freed::hear_freed;
pub use leaving::{Leaving, send};
pub use mailbox::Mailbox;
pub use runs::Run;
pub use sending::Exits;
pub use setting_out::slot_of;
pub use settling::put_queues;
