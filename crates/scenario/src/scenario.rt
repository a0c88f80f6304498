ghost use Rattle.std.specs.Prelude.{◌≡◌, ◌≤◌, length, true};
ghost use Rattle.learning.specs.{Ranges.AreInRange, declared.TheConstants.LAST_ITERATION};
ghost use Rattle.town.specs.Views.{rows_of};
ghost use Rattle.scenario.specs.Fitting.{all_remember_fitting};

use learning::Learning;
use plan_memory::MemoryList;
use scoring::Tables;
use town::Town;

/// A town, what each of its persons remembers at first, and what a run of several days of it goes by.
///
/// A person remembers the plans that plans.csv has of him, of which he has tried none and follows the first one. Every plan fits the
/// town: its numbers are in the town, its car routes have links, and each leg goes from the activity before it to the one behind it.
#[derive(Drop)]
pub struct Scenario {
    pub town: Town,
    /// By the persons' numbers.
    pub memories: MemoryList,
    /// What a day is worth to a person: tables for kinds of activities, by the numbers that the town's book has for them.
    pub tables: Tables,
    /// What persons replan by between two days.
    pub learning: Learning,
    /// The number of the last iteration; the first one has the number 0.
    pub last_iteration: u32,
    pub ghost each: { length memories ≡ length town.book.persons },
    pub ghost fitting: { all_remember_fitting (rows_of town) memories ≡ true },
    pub ghost learning_in_range: { AreInRange learning },
    pub ghost few_iterations: { last_iteration ≤ LAST_ITERATION },
}
