ghost use Rattle.std.specs.Prelude.{◌≡◌, ◌∷◌, ◌++◌, ◌<◌, ℕ, List, [], true, false, Ok, length, replicate, IsErr};
ghost use Rattle.std.specs.Prelude.{OnOk, OnErr};
ghost use Rattle.edge_files.specs.declared.files.TheConstants.{FILE_COUNT};
ghost use Rattle.edge_files.specs.InMemory.{no_calls, next_fails, passed_call, failed_call, with_left, Reads};

use crate::calls::Calls;
use crate::contents::Contents;
use crate::files::{Failed, InFile};
use crate::reading::Inputs;
use std::alloc::{AllocError, Global};
use std::marker::Model;

/// Inputs that are kept in memory. Chosen calls fail, counted from 1 over the calls with a nonempty slice.
#[derive(Drop)]
pub struct MemoryInputs {
    files: Contents,
    calls: Calls,
}

impl Model for MemoryInputs {
    ghost use Rattle.edge_files.specs.InMemory.{InputsHeld};

    ghost Value = { InputsHeld };

    ghost view = { λ m. record { left = m.files; calls = m.calls } };
}

impl MemoryInputs {
    /// Empty files, of which no read fails.
    pub fn new(alloc: Global) -> Self
        ensures { result ≡ record { left = replicate FILE_COUNT []; calls = no_calls } }
    {
        MemoryInputs {
            files: Contents::new(alloc),
            calls: Calls::new(alloc),
        }
    }

    /// Replaces what is left of a file.
    pub fn put(&mut self, file: InFile, bytes: &[u8]) -> Result<(), AllocError>
        ensures ok { OnOk result (self.new ≡ record { left = with_left self.old.left file bytes.now; calls = self.old.calls }) }
        ensures err { OnErr result (self.new ≡ self.old) }
    {
        self.files.put(file, bytes)
    }

    /// Lets the call of this number fail.
    pub fn fail_at(&mut self, call: u64) -> Result<(), AllocError>
        ensures ok { OnOk result (self.new ≡ record {
          left = self.old.left;
          calls = record self.old.calls { failing = self.old.calls.failing ++ call ∷ [] };
        }) }
        ensures err { OnErr result (self.new ≡ self.old) }
    {
        self.calls.fail_at(call)
    }
}

impl Inputs for MemoryInputs {
    ghost use Rattle.std.specs.Prelude.{Some};
    ghost use Rattle.edge_files.specs.InMemory.{left_of};

    ghost left = { λ m file. Some (left_of m.left file) };

    ghost faults = { λ m. m.calls.faults };

    fn read(&mut self, file: InFile, into: &mut [u8]) -> Result<usize, Failed>
        ensures empty { length into.old ≡ 0 → (result ≡ Ok 0) × (self.new ≡ self.old) × (into.new ≡ into.old) }
        ensures fails { 0 < length into.old → next_fails self.old.calls ≡ true →
            IsErr result × (self.new ≡ record { left = self.old.left; calls = failed_call self.old.calls }) × (into.new ≡ into.old) }
        ensures reads { 0 < length into.old → next_fails self.old.calls ≡ false →
            Reads self.old.left self.new.left file into.old into.new result × (self.new.calls ≡ passed_call self.old.calls) }
    {
        if into.is_empty() {
            return Ok(0);
        }
        if self.calls.next() {
            return Err(Failed);
        }
        Ok(self.files.take_into(file, into))
    }
}

/// Inputs that are kept in memory, of which no read fails.
#[derive(Drop)]
pub struct SureInputs {
    files: Contents,
}

impl Model for SureInputs {
    ghost use Rattle.std.specs.Prelude.{ℕ, List};

    ghost Value = { List (List ℕ) };

    ghost view = { λ s. s.files };
}

impl SureInputs {
    /// Empty files.
    pub fn new(alloc: Global) -> Self
        ensures { result ≡ replicate FILE_COUNT [] }
    {
        SureInputs {
            files: Contents::new(alloc),
        }
    }

    /// Replaces what is left of a file.
    pub fn put(&mut self, file: InFile, bytes: &[u8]) -> Result<(), AllocError>
        ensures ok { OnOk result (self.new ≡ with_left self.old file bytes.now) }
        ensures err { OnErr result (self.new ≡ self.old) }
    {
        self.files.put(file, bytes)
    }
}

impl Inputs for SureInputs {
    ghost use Rattle.std.specs.Prelude.{Some};
    ghost use Rattle.edge_files.specs.InMemory.{left_of};

    ghost left = { λ files file. Some (left_of files file) };

    ghost faults = { λ _. 0 };

    fn read(&mut self, file: InFile, into: &mut [u8]) -> Result<usize, Failed>
        ensures { Reads self.old self.new file into.old into.new result }
    {
        Ok(self.files.take_into(file, into))
    }
}
