//! The whole second of a link: what begins, moves, stops and is served on it, exactly as `traffic` says it, where each stop has a line of
//! its own.
#![tactic(auto)]

mod seconds;
mod services;

pub use seconds::link_second;
