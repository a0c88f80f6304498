//! What a day is worth to its persons: the score of each, out of one pass over the events of all, which may come piece by piece, with the
//! sum of the scores and their lines in scores.csv.
#![tactic(auto)]

mod kinds;
mod scorers;
mod sums;
mod texts;

pub use kinds::first_kinds;
pub use scorers::Scorers;
pub use sums::sum_of;
pub use texts::scores_text;
