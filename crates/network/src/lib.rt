//! The road network: nodes and links, and the files nodes.csv and links.csv.
#![tactic(auto)]

mod links;
mod links_read;
mod measures;
mod nodes;

pub use links::read_links;
pub use nodes::read_nodes;
pub use rows::{LinkList, LinkRow, Network, NodeList, NodeRow};
