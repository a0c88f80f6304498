//! Tests of routes: worked networks, arrivals on a slow link, and damaged certificates.
#![tactic(auto)]

#[cfg(test)]
mod networks;
#[cfg(test)]
mod worked;
