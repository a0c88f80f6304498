//! The report of a route: from one node to another, left in a second, at the links' free speed. The labels that it tells prove that no walk
//! arrives earlier, and the call has them checked before it tells them; docs/PROFILE.md states the text.
#![tactic(auto)]

mod laws;
mod lines;
mod report;

pub use laws::reports_are_least;
pub use report::route_text;
