use events::{Names, Rows};
use rows::PlanLists;

/// Rows of a file by their numbers, from 1 on.
pub type RowNumbers = Rows<u32>;

/// What plans.csv gives: names numbered by first appearance, and each person's plans.
///
/// `starts` has the row in which each plan begins, the plans of all persons one behind the other:
/// the first activity of such a plan stands in that row, the leg behind it in the next one.
#[derive(Drop)]
pub struct PlanFile {
    pub persons: Names,
    pub kinds: Names,
    pub lines: Names,
    pub stops: Names,
    pub plans: PlanLists,
    pub starts: RowNumbers,
}
