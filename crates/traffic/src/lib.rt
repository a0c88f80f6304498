//! What a second of traffic is: the rows of the world, the moves that change them, and what each
//! node, link, person and departure does in its turn. The definitions stand in `specs/`; the
//! functions here are the laws that every crate above rests on.
#![tactic(auto)]

mod laws;
mod moves;
mod node_views;
mod numbers;
mod riders;
mod stage;
mod vehicle;
mod world;

pub use laws::{
    days_are_in_order, idle_turns_move_nothing, links_keep_apart, moves_are_local,
    nodes_keep_apart, persons_keep_apart, phases_are_at_once, waiters_come_in_turn, worked_days,
};
pub use moves::{Move, Occurrence, OccurrenceList};
pub use node_views::{InLink, OutLink};
pub use numbers::Rules;
pub use riders::{Rider, Riders};
pub use rows::{Dwelling, Stuck};
pub use stage::Stage;
pub use vehicle::Vehicle;
pub use world::{Hole, Person, Place, Row, RowList, Waiter};
