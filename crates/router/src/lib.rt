//! Routes of least arrival on a network, by travel times that depend on the second in which a link is entered.
//!
//! A search settles nodes in the order of their arrivals, as Dijkstra's does (E. W. Dijkstra, A note on two problems in connexion with
//! graphs, 1959), and goes on only as far as it is asked. Among routes of least arrival the chosen one is followed back by the link of the
//! least number. The route of a car leg leads from the end of its first link to the start of its last one. docs/PROFILE.md has the rules.
#![tactic(auto)]

mod adjacency;
mod found;
mod frontier;
mod label;
mod laws;
mod legs;
mod routes;
mod search;
mod star;
mod waiting;
mod ways;

pub use adjacency::Adjacency;
pub use found::{Found, RouteError, least};
pub use laws::leg_routes_join_their_links;
pub use legs::{copied_leg, copied_legs};
pub use routes::{leg_route, one_link, route_along, way_by};
pub use search::{Labels, Search, Way};
