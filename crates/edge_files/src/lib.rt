//! The outside of a run: the files that it reads and writes, as traits, and stand-ins for them in memory.
#![tactic(auto)]

mod bytes;
mod calls;
mod contents;
mod effects;
mod files;
mod gate;
mod keeping;
mod memory_inputs;
mod memory_outputs;
mod reading;
mod reasons;
mod writing;

pub use bytes::Bytes;
pub use calls::Calls;
pub use effects::{Effect, EffectError, EffectList, perform};
pub use files::{FILE_COUNT, FILE_NAMES, Failed, InFile, OutFile, SCENARIO_FILES};
pub use gate::{Gate, OpenGate};
pub use keeping::{KeepFail, Keeper, KeptRow, KeptRows, NoKeeper};
pub use memory_inputs::{MemoryInputs, SureInputs};
pub use memory_outputs::{MemoryOutputs, SureOutputs};
pub use reading::{Inputs, ReadStop, read_whole};
pub use reasons::{Reason, RowFault, RowStop};
pub use writing::{Outputs, write_whole};
