ghost use Rattle.std.specs.Prelude.{◌≡◌, ◌∷◌, ◌++◌, ◌<◌, ℕ, List, [], true, false, None, Some, Ok, length, replicate};
ghost use Rattle.std.specs.Prelude.{IsErr, OnOk, OnErr, ◌⊎◌};
ghost use Rattle.edge_files.specs.InMemory.{no_calls, next_fails, failed_call, written_to, fits, write_count, refused_write, taken_write};
ghost use Rattle.edge_files.specs.InMemory.{TakesOrFails};

use crate::bytes::Bytes;
use crate::calls::Calls;
use crate::files::{Failed, OutFile};
use crate::writing::Outputs;
use std::alloc::{AllocError, Global};
use std::marker::Model;

/// How many of the next bytes there is room for.
fn count_that_fits(room: Option<u64>, taken: u64, wanted: usize) -> usize
    ensures { result ≡ fits room taken wanted }
{
    match room {
        None => wanted,
        Some(total) => (wanted as u64).min(total.saturating_sub(taken)) as usize,
    }
}

/// Outputs that are kept in memory. Chosen calls fail, counted from 1 over the calls with a nonempty piece,
/// and so does each write once the room is used up.
#[derive(Drop)]
pub struct MemoryOutputs {
    files: [Bytes; 4],
    taken: u64,
    room: Option<u64>,
    calls: Calls,
}

impl Model for MemoryOutputs {
    ghost use Rattle.edge_files.specs.InMemory.{OutputsHeld};

    ghost Value = { OutputsHeld };

    ghost view = { λ m. record { written = m.files; taken = m.taken; room = m.room; calls = m.calls } };
}

impl MemoryOutputs {
    /// Empty files without a bound, of which no write is to fail.
    pub fn new(alloc: Global) -> Self
        ensures { result ≡ record { written = replicate 4 []; taken = 0; room = None; calls = no_calls } }
    {
        MemoryOutputs {
            files: [
                Bytes::new(alloc),
                Bytes::new(alloc),
                Bytes::new(alloc),
                Bytes::new(alloc),
            ],
            taken: 0,
            room: None,
            calls: Calls::new(alloc),
        }
    }

    /// Lets the call of this number fail.
    pub fn fail_at(&mut self, call: u64) -> Result<(), AllocError>
        ensures ok { OnOk result (self.new ≡ record self.old {
          calls = record self.old.calls { failing = self.old.calls.failing ++ call ∷ [] };
        }) }
        ensures err { OnErr result (self.new ≡ self.old) }
    {
        self.calls.fail_at(call)
    }

    /// Lets all files together take so many bytes, those counted that they have.
    pub fn room(&mut self, total: u64)
        ensures { self.new ≡ record self.old { room = Some total } }
    {
        self.room = Some(total);
    }

    /// What was written to a file.
    pub fn written(&self, file: OutFile) -> &[u8]
        ensures { result.now ≡ written_to self.now.written file }
    {
        let bytes = &self.files[file.place()];
        &bytes.rows
    }
}

impl Outputs for MemoryOutputs {
    ghost written = { λ m file. Some (written_to m.written file) };

    ghost faults = { λ m. m.calls.faults };

    fn write(&mut self, file: OutFile, piece: &[u8]) -> Result<usize, Failed>
        ensures empty { length piece.now ≡ 0 → (result ≡ Ok 0) × (self.new ≡ self.old) }
        ensures fails { 0 < length piece.now → (next_fails self.old.calls ≡ true) ⊎
            (write_count self.old (length piece.now) ≡ 0) →
            IsErr result × (self.new ≡ refused_write self.old) }
        ensures takes { next_fails self.old.calls ≡ false → 0 < write_count self.old (length piece.now) →
            TakesOrFails self.old self.new file piece.now result }
    {
        if piece.is_empty() {
            return Ok(0);
        }
        if self.calls.next() {
            return Err(Failed);
        }
        let count = count_that_fits(self.room, self.taken, piece.len());
        if count == 0 {
            self.calls.fail();
            return Err(Failed);
        }
        let bytes = &mut self.files[file.place()];
        if bytes.append(&piece[..count]).is_err() {
            self.calls.fail();
            return Err(Failed);
        }
        self.taken = self.taken.saturating_add(count as u64);
        Ok(count)
    }
}

/// Outputs that take each piece whole, and keep and tell nothing. No write fails.
#[derive(Drop)]
pub struct SureOutputs;

impl SureOutputs {
    pub fn new() -> Self
        ensures { result ≡ record {} }
    {
        SureOutputs
    }
}

impl Outputs for SureOutputs {
    ghost written = { λ _ _. None };

    ghost faults = { λ _. 0 };

    fn write(&mut self, _file: OutFile, piece: &[u8]) -> Result<usize, Failed>
        ensures { result ≡ Ok (length piece.now) }
    {
        Ok(piece.len())
    }
}
