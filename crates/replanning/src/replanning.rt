use learning::Learning;
use router::Adjacency;
use travel_times::LinkTimes;

/// What persons replan by before an iteration.
#[derive(Clone, Copy)]
pub struct Replanning<'a> {
    /// The network.
    pub adjacency: &'a Adjacency,
    /// The travel times of the day before.
    pub times: &'a LinkTimes,
    pub learning: Learning,
    /// Where all random words begin.
    pub seed: u64,
    /// The second at which a day is over, at most `LAST_SECOND`.
    pub end_second: u32,
    pub iteration: u32,
}
