//! The text of a day plan, with the layout of plans.csv: written, and read back exactly.
#![tactic(auto)]

mod elements;
mod fields;
mod files;
mod reading;
mod writing;

pub use fields::{names_of, push_joined};
pub use files::plans_text;
pub use reading::{know_names, read_body};
pub use writing::write_plan;
