//! Tests of partitions that step, on one thread and on several, with a stand-in for a partition: it sends numbers to its neighbours, to
//! each in two seconds of five, and counts those that it gets. Which partition may step, in which order, and what it has got by when is
//! worked out by hand.
#![tactic(auto)]

#[cfg(test)]
mod cores;
mod counters;
#[cfg(test)]
mod results;
mod rows;
#[cfg(test)]
mod threads;
