//! What is told of a file: its bytes, what was read of them, or its fault.

ghost use Rattle.std.specs.Prelude.{◌≡◌, Some, None, IfOk, IfErr};
ghost use Rattle.scenario.specs.{Faults.error_in, Faults.with_file, Views.texts_of};

use crate::faults::{ScenarioFault, Stop};
use crate::files::Files;
use edge_files::{InFile, Reason, RowStop};

/// The bytes of a file, or its fault that it is too long.
pub fn bytes_of(files: &Files, file: InFile) -> Result<&[u8], Stop>
    ensures ok { IfOk result (λ bytes. texts_of files.now file ≡ Some bytes.now) }
    ensures long { IfErr result (λ error. (texts_of files.now file ≡ None)
        × (error ≡ Stop.Fault (record { file = file; row = 0; reason = Reason.TooLong }))) }
{
    match files.text(file) {
        Some(bytes) => Ok(bytes),
        None => Err(Stop::Fault(ScenarioFault {
            file,
            row: 0,
            reason: Reason::TooLong,
        })),
    }
}

/// Why a file was not read, with the file.
fn error_in(file: InFile, error: RowStop) -> Stop
    ensures { result ≡ error_in file error }
{
    match error {
        RowStop::Fault(fault) => Stop::Fault(ScenarioFault {
            file,
            row: fault.row,
            reason: fault.reason,
        }),
        RowStop::NoMemory => Stop::NoMemory,
    }
}

/// What was read of a file, or why it was not, with the file.
#[tactic(auto, unfolding(crate::specs::Faults::with_file))]
pub fn with_file<T: Drop>(file: InFile, read: Result<T, RowStop>) -> Result<T, Stop>
    ensures { result ≡ with_file file read }
{
    match read {
        Ok(read) => Ok(read),
        Err(error) => Err(error_in(file, error)),
    }
}
