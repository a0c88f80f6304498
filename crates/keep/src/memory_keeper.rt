//! A keeper in memory.

ghost use Rattle.std.specs.Prelude.{◌≡◌, ◌∷◌, ◌++◌, [], true, false, None, Some, Ok, Err, OnOk, OnErr, IfOk, MatchResult};
ghost use Rattle.std.specs.Prelude.{option_map};
ghost use Rattle.edge_files.specs.{InMemory.no_calls, InMemory.next_fails, InMemory.passed_call, Keeping.kept_of, Keeping.rows_of};
ghost use Rattle.keep.specs.InMemory.{after_call};

use edge_files::{Bytes, Calls, KeepFail, Keeper, KeptRow};
use std::alloc::{AllocError, Global};
use std::marker::Model;

/// An iteration and the rows at its end.
#[derive(Drop)]
struct Checkpoint {
    iteration: u32,
    rows: Vec<KeptRow>,
}

fn copy_of(alloc: Global, row: &KeptRow) -> Result<KeptRow, AllocError>
    ensures { IfOk result (λ copy. copy ≡ row.now) }
{
    let person = Vec::from_slice(alloc, &row.person.rows)?;
    let body = Vec::from_slice(alloc, &row.body.rows)?;
    Ok(KeptRow {
        person: Bytes { rows: person },
        plan: row.plan,
        chosen: row.chosen,
        score: row.score,
        body: Bytes { rows: body },
    })
}

/// Puts copies of rows behind those of a list.
fn push_copies(alloc: Global, rows: &[KeptRow], copies: &mut Vec<KeptRow>) -> Result<(), AllocError>
    ensures { OnOk result (copies.new.items ≡ copies.old.items ++ rows.now) }
{
    for row in rows {
        copies.push(copy_of(alloc, row)?)?;
    }
    Ok(())
}

fn checkpoint_of(alloc: Global, iteration: u32, rows: &[KeptRow]) -> Result<Checkpoint, AllocError>
    ensures { IfOk result (λ kept. kept_of kept.iteration kept.rows.items ≡ kept_of iteration rows.now) }
{
    let mut copies = Vec::new(alloc);
    push_copies(alloc, rows, &mut copies)?;
    Ok(Checkpoint {
        iteration,
        rows: copies,
    })
}

/// A keeper that keeps in memory, and tells what it keeps. Chosen calls fail, counted from 1 over all calls of the keeper; a failed save
/// leaves what was kept.
#[derive(Drop)]
pub struct MemoryKeeper {
    kept: Option<Checkpoint>,
    calls: Calls,
    alloc: Global,
}

impl Model for MemoryKeeper {
    ghost use Rattle.keep.specs.{InMemory.KeeperHeld, KeeperViews.keeper_held};

    ghost Value = { KeeperHeld };

    ghost view = { keeper_held };
}

impl MemoryKeeper {
    /// Nothing is kept, and no call is to fail.
    pub fn new(alloc: Global) -> Self
        ensures { result ≡ record { kept = None; calls = no_calls } }
    {
        MemoryKeeper {
            kept: None,
            calls: Calls::new(alloc),
            alloc,
        }
    }

    /// Lets the call of this number fail. Without memory nothing changes.
    pub fn fail_at(&mut self, call: u64) -> Result<(), AllocError>
        ensures ok { OnOk result (self.new ≡ record {
          kept = self.old.kept;
          calls = record self.old.calls { failing = self.old.calls.failing ++ call ∷ [] };
        }) }
        ensures err { OnErr result (self.new ≡ self.old) }
    {
        self.calls.fail_at(call)
    }

    /// Counts one more call, and tells whether it is to fail.
    fn next_fails(&mut self) -> bool
        ensures fails { result ≡ next_fails self.old.calls }
        ensures counted { self.new ≡ after_call self.old }
    {
        self.calls.next()
    }

    /// Puts the kept rows behind those of a list.
    fn push_kept(&self, rows: &mut Vec<KeptRow>) -> Result<(), AllocError>
        ensures { OnOk result (rows.new.items ≡ rows.old.items ++ rows_of self.now.kept) }
    {
        match &self.kept {
            None => Ok(()),
            Some(kept) => push_copies(self.alloc, &kept.rows, rows),
        }
    }
}

impl Keeper for MemoryKeeper {
    ghost kept = { λ k. Some k.kept };

    ghost faults = { λ k. k.calls.faults };

    fn save(&mut self, iteration: u32, rows: &[KeptRow]) -> Result<(), KeepFail>
        ensures fails { next_fails self.old.calls ≡ true → (result ≡ Err KeepFail.Failed) × (self.new ≡ after_call self.old) }
        ensures saves { next_fails self.old.calls ≡ false → MatchResult result
            (λ _. self.new ≡ record { kept = Some (kept_of iteration rows.now); calls = passed_call self.old.calls })
            (λ fail. (fail ≡ KeepFail.NoMemory) × (self.new ≡ after_call self.old)) }
    {
        if self.next_fails() {
            return Err(KeepFail::Failed);
        }
        match checkpoint_of(self.alloc, iteration, rows) {
            Ok(kept) => {
                self.kept = Some(kept);
                Ok(())
            }
            Err(AllocError) => Err(KeepFail::NoMemory),
        }
    }

    fn last(&mut self) -> Result<Option<u32>, KeepFail>
        ensures fails { next_fails self.old.calls ≡ true → result ≡ Err KeepFail.Failed }
        ensures tells { next_fails self.old.calls ≡ false → result ≡ Ok (option_map (λ kept. kept.iteration) self.old.kept) }
        ensures counted { self.new ≡ after_call self.old }
    {
        if self.next_fails() {
            return Err(KeepFail::Failed);
        }
        match &self.kept {
            None => Ok(None),
            Some(kept) => Ok(Some(kept.iteration)),
        }
    }

    fn load(&mut self, rows: &mut Vec<KeptRow>) -> Result<(), KeepFail>
        ensures fails { next_fails self.old.calls ≡ true → (result ≡ Err KeepFail.Failed) × (rows.new.items ≡ rows.old.items) }
        ensures loads { next_fails self.old.calls ≡ false → MatchResult result
            (λ _. rows.new.items ≡ rows.old.items ++ rows_of self.old.kept) (λ fail. fail ≡ KeepFail.NoMemory) }
        ensures counted { self.new ≡ after_call self.old }
    {
        if self.next_fails() {
            return Err(KeepFail::Failed);
        }
        match self.push_kept(rows) {
            Ok(()) => Ok(()),
            Err(AllocError) => Err(KeepFail::NoMemory),
        }
    }
}
