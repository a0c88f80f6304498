//! The turns of links and nodes as the reference has them, slow and plain: each as its list of moves, exactly as the
//! definitions of `traffic` say it, and what a move tells.
#![tactic(auto)]

mod fronts;
mod links;
mod lists;
mod nodes;
mod out_links;
mod picks;
mod stops;

pub use links::link_moves;
pub use lists::LinkVehicles;
pub use nodes::node_moves;
pub use out_links::OutLinkRow;
pub use vehicles::{of_person, push_told};
