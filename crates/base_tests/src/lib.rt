//! Tests of the crates at the bottom: names and lists of numbers, whole reads and writes, effects, the files of the folder, what the words of
//! the command line give, and the calendars of a day.
#![tactic(auto)]

#[cfg(test)]
mod calendars;
#[cfg(test)]
mod commands;
#[cfg(test)]
mod effects;
#[cfg(test)]
mod files;
#[cfg(test)]
mod folder;
#[cfg(test)]
mod names;
