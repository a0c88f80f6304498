ghost use Rattle.std.specs.Prelude.{◌≡◌, ◌++◌, ℕ, List, Option, Some, None, Ok, OnOk, OnErr, IfOk};
ghost use Rattle.edge_files.specs.Keeping.{Told, kept_of, Becomes, Stays, StaysIfTold, KeepsOrBecomes, IsTold, Loads};
ghost use Rattle.edge_files.specs.Causes.{KeepHasCause};

use crate::bytes::Bytes;
use events::Rows;
use thiserror::Error;

/// A plan as it is kept: whose it is, its place among the person's plans, whether it is the chosen one,
/// its score if it has one, and its text.
#[derive(Drop)]
pub struct KeptRow {
    pub person: Bytes,
    pub plan: u32,
    pub chosen: bool,
    pub score: Option<i64>,
    pub body: Bytes,
}

/// Kept plans, in order.
pub type KeptRows = Rows<KeptRow>;

/// Why a keeper refused.
#[derive(Clone, Copy, Debug, PartialEq, Eq, Error)]
pub enum KeepFail {
    #[error("the keeper failed")]
    Failed,
    #[error("no memory")]
    NoMemory,
}

/// Where an iteration's plans are kept for a later run. A keeper that tells what it holds may stop telling
/// only where it refuses a call.
pub trait Keeper {
    /// The iteration and the rows that are kept, if there are any, where that is told.
    ghost kept: { Self → Told };

    /// How often a call has failed. It never falls.
    ghost faults: { Self → ℕ };

    /// Keeps these rows in place of what was kept. After a refusal the old or the new ones stand whole.
    fn save(&mut self, iteration: u32, rows: &[KeptRow]) -> Result<(), KeepFail>
        ensures ok { OnOk result (Becomes (kept self.old) (kept self.new) (Some (kept_of iteration rows.now))) }
        ensures err { OnErr result (KeepsOrBecomes (kept self.old) (kept self.new) (kept_of iteration rows.now)) }
        ensures cause { KeepHasCause (faults self.old) (faults self.new) result };

    /// The iteration that is kept, if there is one.
    fn last(&mut self) -> Result<Option<u32>, KeepFail>
        ensures last { IfOk result (λ last. IsTold (kept self.old) last) }
        ensures ok { OnOk result (Stays (kept self.old) (kept self.new)) }
        ensures err { OnErr result (StaysIfTold (kept self.old) (kept self.new)) }
        ensures cause { KeepHasCause (faults self.old) (faults self.new) result };

    /// Puts the kept rows in order behind those of the list. After a refusal the list may have some of them,
    /// and is to be dropped.
    fn load(&mut self, rows: &mut Vec<KeptRow>) -> Result<(), KeepFail>
        ensures loads { OnOk result (Loads (kept self.old) rows.old.items rows.new.items) }
        ensures ok { OnOk result (Stays (kept self.old) (kept self.new)) }
        ensures err { OnErr result (StaysIfTold (kept self.old) (kept self.new)) }
        ensures cause { KeepHasCause (faults self.old) (faults self.new) result };
}

/// A keeper that keeps nothing and tells nothing. It never fails.
#[derive(Drop)]
pub struct NoKeeper;

impl NoKeeper {
    pub fn new() -> Self
        ensures { result ≡ record {} }
    {
        NoKeeper
    }
}

impl Keeper for NoKeeper {
    ghost kept = { λ _. None };

    ghost faults = { λ _. 0 };

    fn save(&mut self, _iteration: u32, _rows: &[KeptRow]) -> Result<(), KeepFail>
        ensures { result ≡ Ok tt }
    {
        Ok(())
    }

    fn last(&mut self) -> Result<Option<u32>, KeepFail>
        ensures { result ≡ Ok None }
    {
        Ok(None)
    }

    fn load(&mut self, rows: &mut Vec<KeptRow>) -> Result<(), KeepFail>
        ensures ok { result ≡ Ok tt }
        ensures same { rows.new.items ≡ rows.old.items }
    {
        let _ = rows;
        Ok(())
    }
}
