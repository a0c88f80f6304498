//! The files of the current folder as inputs and outputs, with standard output for the report.
//!
//! What they hold is not told: no contract can say what a file gives or takes. Their counts of faults
//! are, and that a read gives and a write takes no more than there is room for.
#![tactic(auto)]

mod inputs;
mod outputs;
mod streams;

pub use inputs::FileInputs;
pub use outputs::FileOutputs;
pub use streams::StandardStreams;
