//! Tests of the border cells: two partitions and rings of 64, on one thread and on several, with short and long lags. The callers go over
//! any number of neighbours and prove themselves by the contracts of `cells` alone.
#![tactic(auto)]

mod members;
mod numbers;
#[cfg(test)]
mod rings;
#[cfg(test)]
mod seconds;
#[cfg(test)]
mod trials;
#[cfg(test)]
mod two_partitions;
