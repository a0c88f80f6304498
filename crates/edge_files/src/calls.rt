ghost use Rattle.std.specs.Prelude.{◌≡◌, ◌∷◌, ◌++◌, [], if◌then◌else◌, OnOk, OnErr};
ghost use Rattle.edge_files.specs.{Causes.up, InMemory.no_calls, InMemory.next_fails, InMemory.passed_call, InMemory.failed_call};

use std::alloc::{AllocError, Global};
use std::marker::Model;

/// Counts calls, and knows which of them are to fail.
#[derive(Drop)]
pub struct Calls {
    failing: Vec<u64>,
    made: u64,
    faults: u64,
}

impl Model for Calls {
    ghost use Rattle.edge_files.specs.InMemory.{CallCounts};

    ghost Value = { CallCounts };

    ghost view = { λ c. record { failing = c.failing.items; made = c.made; faults = c.faults } };
}

impl Calls {
    pub fn new(alloc: Global) -> Self
        ensures { result ≡ no_calls }
    {
        Calls {
            failing: Vec::new(alloc),
            made: 0,
            faults: 0,
        }
    }

    /// Lets the call of this number fail.
    pub fn fail_at(&mut self, call: u64) -> Result<(), AllocError>
        ensures ok { OnOk result (self.new ≡ record self.old { failing = self.old.failing ++ call ∷ [] }) }
        ensures err { OnErr result (self.new ≡ self.old) }
    {
        match self.failing.push(call) {
            Ok(()) => Ok(()),
            Err(_) => Err(AllocError),
        }
    }

    /// Counts one more call, and tells whether it is to fail.
    pub fn next(&mut self) -> bool
        ensures fails { result ≡ next_fails self.old }
        ensures counted { self.new ≡ (if result then failed_call self.old else passed_call self.old) }
    {
        self.made = self.made.saturating_add(1);
        let made = self.made;
        if self.failing.contains(&made) {
            self.faults = self.faults.saturating_add(1);
            return true;
        }
        false
    }

    /// Lets the call that was counted last fail too.
    pub fn fail(&mut self)
        ensures { self.new ≡ record self.old { faults = up self.old.faults } }
    {
        self.faults = self.faults.saturating_add(1);
    }
}
