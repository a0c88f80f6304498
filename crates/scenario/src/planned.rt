ghost use Rattle.std.specs.Prelude.{◌≡◌, length, true};
ghost use Rattle.rows.specs.PlanRows.{all_plan_rows};
ghost use Rattle.town.specs.Views.{rows_of};
ghost use Rattle.scenario.specs.Fitting.{all_fit};

use rows::PlanLists;
use town::Town;

/// A town, and each person's plans in it: one to five, each of which fits the town.
#[derive(Drop)]
pub struct PlannedTown {
    pub town: Town,
    pub plans: PlanLists,
    pub ghost each: { length plans ≡ length town.book.persons },
    pub ghost fitting: { all_fit (rows_of town) (all_plan_rows plans) ≡ true },
}
