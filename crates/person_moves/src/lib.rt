//! What both the reference and the fast day do with persons: the world of a day and its start, the turns of persons and departures as
//! lists of moves, the rows of links, what moves do to a world in place, and the keys of what they tell. All exactly as the definitions of
//! `traffic` say it.
//!
//! A day takes the moves of one turn (`landing_moves`, `leaving_moves`, `departure_moves`, or those of a link or a node), does them
//! (`do_moves`) and appends what they told with its keys (`push_keyed`).
#![tactic(auto)]

mod departures;
mod keys;
mod legs;
mod link_credits;
mod links;
mod moving;
mod persons;
mod start_of_day;
mod steps;
mod stops;
mod vehicle_rows;
mod waiting;
mod world;

pub use departures::departure_moves;
pub use keys::push_keyed;
pub use legs::mode_in;
pub use link_credits::LinkCredits;
pub use links::{hole_of, link_row};
pub use moving::{do_move, do_moves};
pub use persons::{landing_moves, leaving_moves};
pub use start_of_day::{at_home, start, start_with};
pub use steps::step_persons;
pub use stops::link_of_stop;
pub use vehicle_rows::is_on;
pub use waiting::waiter_in;
pub use world::{World, person_of};
