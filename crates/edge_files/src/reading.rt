ghost use Rattle.std.specs.Io.{ReadsAtMost, KnownBytes.Consumes, KnownBytes.ReadConsumes};
ghost use Rattle.std.specs.Prelude.{◌≡◌, ◌≤◌, ◌+◌, ℕ, List, Option, IfOk, Err, Ok, length};
ghost use Rattle.edge_files.specs.Causes.{HasCause, Rose};
ghost use Rattle.edge_files.specs.{Inputs.OthersStay, Inputs.IsWhole, Inputs.IsLonger, Inputs.TakesAtMost, declared.files.InFile.InFile};

use crate::files::{Failed, InFile};
use std::alloc::Global;
use thiserror::Error;

/// The files that a run reads, each from its front to its end.
pub trait Inputs {
    /// What is left of each file, where it is told.
    ghost left: { Self → InFile → Option (List ℕ) };

    /// How often a read has failed. It never falls.
    ghost faults: { Self → ℕ };

    /// Moves the next bytes of a file to the front of `into`, and tells how many. With room it is `Ok(0)`
    /// only at the file's end. With no room it is `Ok(0)`. A failed read takes nothing.
    fn read(&mut self, file: InFile, into: &mut [u8]) -> Result<usize, Failed>
        ensures bound { ReadsAtMost result into.new }
        ensures bytes { ReadConsumes (left self.old file) (left self.new file) result into.new }
        ensures others { OthersStay (left self.old) (left self.new) file }
        ensures empty { length into.old ≡ 0 → result ≡ Ok 0 }
        ensures cause { HasCause (faults self.old) (faults self.new) result };
}

/// Why a file was not read whole.
#[derive(Clone, Copy, Debug, PartialEq, Eq, Error)]
pub enum ReadStop {
    #[error("a read failed")]
    Failed,
    #[error("the file has too many bytes")]
    TooLong,
    #[error("no memory")]
    NoMemory,
}

/// How many bytes are asked for at once.
const BLOCK: usize = 65536;

/// All that is left of a file. It is too long exactly where no read failed and more bytes than the limit were left.
/// At most one byte beyond the limit is taken, and no byte beyond it is kept.
pub fn read_whole<I: Inputs>(
    alloc: Global,
    inputs: &mut I,
    file: InFile,
    limit: u64,
) -> Result<Vec<u8>, ReadStop>
    ensures whole { IfOk result (λ bytes. IsWhole (I.left inputs.old file) bytes.items) }
    ensures within { IfOk result (λ bytes. length bytes.items ≤ limit) }
    ensures took { IfOk result (λ bytes. Consumes (I.left inputs.old file) (I.left inputs.new file) bytes.items) }
    ensures long { result ≡ Err ReadStop.TooLong → IsLonger (I.left inputs.old file) limit }
    ensures failed { result ≡ Err ReadStop.Failed → Rose (I.faults inputs.old) (I.faults inputs.new) }

    // At every answer.
    ensures later { I.faults inputs.old ≤ I.faults inputs.new }
    ensures others { OthersStay (I.left inputs.old) (I.left inputs.new) file }
    ensures taken { TakesAtMost (I.left inputs.old file) (I.left inputs.new file) (limit + 1) }
{
    let mut bytes = Vec::new(alloc);
    let mut block = [0; BLOCK];
    for _ in 0..u64::MAX {
        let room = (limit - bytes.len() as u64).min(BLOCK as u64 - 1) as usize + 1;
        match inputs.read(file, &mut block[..room]) {
            Ok(0) => return Ok(bytes),
            Ok(count) => {
                if (bytes.len() as u64) + (count as u64) > limit {
                    return Err(ReadStop::TooLong);
                }
                if bytes.extend_from_slice(&block[..count]).is_err() {
                    return Err(ReadStop::NoMemory);
                }
            }
            Err(Failed) => return Err(ReadStop::Failed),
        }
    }
    unreachable!()
}
