//! Replanning: what each person makes of his memory before an iteration.
//!
//! The rules are those of MATSim's replanning (Horni, Nagel and Axhausen (ed.), The Multi-Agent Transport Simulation MATSim, 2016), with
//! halved weights in the place of exponentials; docs/PROFILE.md states them. A person's random words depend on his number and on the
//! iteration alone, so the persons are spread over the processors, and the answer is that of one after the other.
#![tactic(auto)]

mod acts;
mod legs;
mod persons;
mod plans;
mod replanning;
mod spread;

pub use acts::mutate_times;
pub use persons::replan_person;
pub use plans::reroute;
pub use replanning::Replanning;
pub use spread::replan;
