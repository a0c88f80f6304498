use learning::Learning;
use scoring::Tables;
use town::Town;
use written_day::Execution;

/// What a run of several days is made from, beside what its persons remember at first.
#[derive_where(Clone, Copy)]
pub struct RunInput<'a, G> {
    pub town: &'a Town,
    /// What a day is worth to a person.
    pub tables: &'a Tables,
    /// What persons replan by.
    pub learning: Learning,
    /// The number of the last iteration; the first one has the number 0.
    pub last_iteration: u32,
    /// Whether what the persons remember after each iteration is kept.
    pub keeps: bool,
    /// How its days are computed.
    pub execution: Execution<'a, G>,
}
