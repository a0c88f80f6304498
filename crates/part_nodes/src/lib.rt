//! The nodes of a network in the phase of a second in which they let vehicles pass: only those have a turn that are woken, and all links
//! and places then stand as `traffic` says.
#![tactic(auto)]

mod in_link_rows;
mod in_links;
mod network;
mod node_turns;
mod phases;
mod resting;
mod steady;

pub use in_link_rows::InLinks;
pub use network::NetworkState;
pub use node_turns::NodePhase;
pub use phases::move_nodes;
pub use steady::SteadyLights;
