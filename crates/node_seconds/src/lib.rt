//! The turn of a node among the links of a network, all or those of a part: the links into it hand over, and who leaves them comes into the
//! queues of other links, exactly by the moves that `traffic` gives the node.
#![tactic(auto)]

mod entering;
mod seconds;
mod slots;
mod taking;

pub use entering::enter_links;
pub use seconds::node_second;
pub use slots::number_at;
