use edge_files::{InFile, Reason};
use thiserror::Error;

/// A fault of a file: the row, where 0 is the header or the whole file, and what is wrong with it.
#[derive(Clone, Copy, Debug, PartialEq, Eq, Error)]
#[error("{file}, row {row}: {reason}")]
pub struct ScenarioFault {
    pub file: InFile,
    pub row: u32,
    pub reason: Reason,
}

/// Why there is no scenario.
#[derive(Clone, Copy, Debug, PartialEq, Eq, Error)]
pub enum Stop {
    #[error("{0}")]
    Fault(ScenarioFault),
    #[error("no memory")]
    NoMemory,
}
