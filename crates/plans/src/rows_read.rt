use crate::open_plan::OpenPlan;
use events::Names;
use rows::{Plan, PlanList};

/// What the rows so far give: names by first appearance, the plans of the persons before the last
/// one, his plans before the current one, the rows in which plans begin, and the current plan.
#[derive(Drop)]
pub struct RowsRead {
    pub persons: Names,
    pub kinds: Names,
    pub lines: Names,
    pub stops: Names,
    pub plans: Vec<PlanList>,
    pub own: Vec<Plan>,
    pub starts: Vec<u32>,
    pub current: OpenPlan,
}
