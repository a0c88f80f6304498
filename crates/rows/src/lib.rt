//! The words of a scenario, each once: the rows that its files give and of which a day is made, the settings of its
//! traffic and its signals. The readers fill them, and the definitions of a day and everything above speak of them.
#![tactic(auto)]

mod elements;
mod greens;
mod joined;
mod network;
mod plan;
mod schedule;
mod settings;

pub use elements::{act_after, act_in};
pub use greens::{Green, GreenList, SpanList, green_in};
pub use joined::is_joined;
pub use network::{LinkList, LinkRow, Network, NodeList, NodeRow};
pub use plan::{Act, Acts, Leg, Legs, Plan, PlanList, PlanLists};
pub use schedule::{
    DepartureList, DepartureRow, Departures, RouteList, RouteRow, Routes, StopList, StopRow, Stops,
    calls_at, stop_link,
};
pub use settings::{Dwelling, Stuck, TrafficSettings};
