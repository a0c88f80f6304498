//! Tests of what stands between two days: worked days, told by their events, with scores that an independent program computed; and
//! replanning and generated scenarios, what each call gives where there is memory.
#![tactic(auto)]

#[cfg(test)]
mod days;
#[cfg(test)]
mod grids;
#[cfg(test)]
mod memories;
#[cfg(test)]
mod scored_days;
#[cfg(test)]
mod scores;
