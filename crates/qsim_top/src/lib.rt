//! The top call: words and files in, events, scores, plans and a report out.
//!
//! What is the answer to words, by the files and by what is kept, is one relation, `IsAnswerTo` in specs/: a status and a list of effects
//! outside. Its contract says that exactly these effects were done, or a front of their steps, and what holds of the day of every
//! iteration. The effects of a run are done as they are made, and are never there as a list.
#![tactic(auto)]

mod answers;
mod laws;
mod outcomes;
mod reading;
mod reporting;
mod resuming;
mod running;
mod texts;
mod top;
mod working;

pub use answers::Status;
pub use top::qsim;
