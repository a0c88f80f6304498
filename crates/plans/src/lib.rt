//! Day plans: activities, the legs between them, and the file plans.csv.
#![tactic(auto)]

mod file;
mod kinds;
mod leg_steps;
mod open_plan;
mod orders;
mod plan_file;
mod refusals;
mod rows_read;
mod steps;

pub use file::read_plans;
pub use plan_file::{PlanFile, RowNumbers};
pub use rows::{Act, Acts, Leg, Legs, Plan, PlanList, PlanLists};
