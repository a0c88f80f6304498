//! Tests of what comes to a part over a border and what leaves it, of how a network and a town are divided, and of how what the partitions told
//! goes over a pipe.
#![tactic(auto)]

#[cfg(test)]
mod borders;
#[cfg(test)]
mod divided_networks;
#[cfg(test)]
mod divided_towns;
#[cfg(test)]
mod pieces;
#[cfg(test)]
mod pipe_threads;
#[cfg(test)]
mod pipes;
#[cfg(test)]
mod promises;
#[cfg(test)]
mod town_texts;
