//! Routes for the car legs of plans that have none, as planners write them.
//!
//! A car leg without a link gets the route of least arrival at the links' free speed, as MATSim does before its first iteration (Horni,
//! Nagel and Axhausen (ed.), The Multi-Agent Transport Simulation MATSim, 2016). At free speed the second in which a leg is left does not
//! change its route, so one search serves all legs that begin at a node; and the searches are spread over the processors.
#![tactic(auto)]

mod found;
mod legs;
mod plans;
mod searches;
mod wanted;

pub use plans::with_routes;
