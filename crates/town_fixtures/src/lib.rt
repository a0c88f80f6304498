//! Towns and days for tests, out of the texts of their files.
#![tactic(auto)]

mod days;
mod files;

pub use days::{Fixture, fixture_of, have_fitting_plans};
