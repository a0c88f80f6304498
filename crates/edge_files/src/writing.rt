ghost use Rattle.std.specs.Prelude.{◌≡◌, ◌<◌, ℕ, List, Option, Ok, IfOk, OnOk, OnErr, length};
ghost use Rattle.std.specs.Io.{WritesAtMost};
ghost use Rattle.edge_files.specs.{Causes.HasCause, World.WriteDid, World.Writes, World.WritesPart, World.byte_steps};
ghost use Rattle.edge_files.specs.declared.files.OutFile.{OutFile};

use crate::files::{Failed, OutFile};

/// The files that a run writes, each at its end.
pub trait Outputs {
    /// What was written to each file, where it is told.
    ghost written: { Self → OutFile → Option (List ℕ) };

    /// How often a write has failed. It never falls.
    ghost faults: { Self → ℕ };

    /// Puts some first bytes of a piece behind what the file has, and tells how many: one at least, unless the
    /// piece is empty, where it is `Ok(0)`. A failed write puts nothing there.
    fn write(&mut self, file: OutFile, piece: &[u8]) -> Result<usize, Failed>
        ensures bound { WritesAtMost result piece.now }
        ensures some { 0 < length piece.now → IfOk result (λ n. 0 < n) }
        ensures bytes { WriteDid (written self.old) (written self.new) file result piece.now }
        ensures empty { length piece.now ≡ 0 → result ≡ Ok 0 }
        ensures cause { HasCause (faults self.old) (faults self.new) result };
}

/// How many bytes are handed on at once.
const PIECE: usize = 65536;

/// Writes all of a piece, some 64 KiB at once. At an `Err` a front of it was written. It takes no memory.
#[tactic(auto, using(crate::proofs::Written::writing_front, crate::proofs::Written::writing_part))]
pub fn write_whole<O: Outputs>(outputs: &mut O, file: OutFile, piece: &[u8]) -> Result<(), Failed>
    ensures done { OnOk result (Writes (O.written outputs.old) (O.written outputs.new) (byte_steps file piece.now)) }
    ensures part { OnErr result (WritesPart (O.written outputs.old) (O.written outputs.new) file piece.now) }
    ensures cause { HasCause (O.faults outputs.old) (O.faults outputs.new) result }
{
    let mut rest = piece;
    while !rest.is_empty() {
        let (front, _) = rest.split_at(rest.len().min(PIECE));
        match outputs.write(file, front) {
            Ok(count) => {
                let (_, after) = rest.split_at(count);
                rest = after;
            }
            Err(Failed) => return Err(Failed),
        }
    }
    Ok(())
}
