//! The town: what a day is made from, beside the chosen plans. Its network, its schedule, its
//! signals and the settings of its traffic; which plans fit it; and the setup of a day in it.
#![tactic(auto)]

mod day_input;
mod fits;
mod legs;
mod town;

pub use day_input::{DayInput, chosen_plan};
pub use fits::{first_link, plan_fits};
pub use legs::{wrong_ends, wrong_stops};
pub use rows::{Green, GreenList, green_in};
pub use town::Town;
