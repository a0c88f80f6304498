//! Laws of a day in a town: every vehicle, person and hole fits the town in every second, so that the turns of the day
//! meet what they require, and every number that an event tells has a name in the town's book.
#![tactic(auto)]

mod laws;

pub use laws::{
    days_are_named, days_stay_fit, fit_rows_are_small, moves_keep_fit, sound_worlds_are_fit,
    towns_are_fit, turns_are_fit,
};
