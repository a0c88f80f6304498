//! Tests of what is kept of a run: the keeper in memory, the packing of rows, and a database whose disk stops in the midst of a save, and
//! that is opened again. The keeper of the folder is that of the program, which `examples/` and `.ci/kept` run.
#![tactic(auto)]

#[cfg(test)]
mod in_memory;
#[cfg(test)]
mod packing;
#[cfg(test)]
mod stops;
#[cfg(test)]
mod tables;
