//! A keeper over a database.

ghost use Rattle.std.{proofs.Common.true≢false, proofs.Common.sym, specs.Prelude.◌≡◌};
ghost use Rattle.std.specs.Prelude.{◌≤◌, ◌++◌, Bool, true, false, refl, Some, None, OnOk, OnErr, IfOk, option_map, List, pos};
ghost use Rattle.sqlite.specs.Held.{state};
ghost use Rattle.edge_files.specs.{Causes.KeepHasCause, Causes.Rose, Keeping.kept_of, Keeping.Becomes, Keeping.Stays, Keeping.StaysIfTold};
ghost use Rattle.edge_files.specs.{Keeping.KeepsOrBecomes, Keeping.IsTold, Keeping.Loads, declared.keeping.KeptRow.KeptRow};
ghost use Rattle.keep_sql.specs.{Calls.LeavesOldOr, Packing.rows_in, Packing.packing, Told.told};

use crate::packing::{pack, unpack};
use crate::statements::{kept_in, save_in};
use edge_files::{KeepFail, Keeper, KeptRow};
use sqlite::{Alter, Connection, Error, ErrorCode, FileStore, MemStore};
use sqlite_disk::Disk;
use std::alloc::{AllocError, Global};
use std::fmt;

/// A store of which is known whether it stays clean: whether it gives back what was written to it, and nobody else writes there.
pub trait Tells: Alter {
    /// Whether what is kept in the store is told.
    ghost tells: { Bool };

    /// A store of which is told stays clean.
    ghost clean: { tells ≡ true → (s : Self) → (Self.Store.view s).is_clean ≡ true };
}

impl Tells for MemStore {
    ghost tells = { true };

    ghost clean = { λ _ _. refl };
}

/// What a disk gives back is not known, so nothing is told of files.
impl<D: Disk> Tells for FileStore<D> {
    ghost tells = { false };

    ghost clean = { λ never _. absurd (true≢false (sym never)) };
}

/// Why a call failed.
#[derive(Clone, Copy, Debug, PartialEq, Eq)]
pub enum Fault {
    /// The database refused a statement, or what it keeps has another type or range.
    Refused(Error),
    /// The connection is in a transaction.
    InTransaction,
    /// What is kept is the packing of no list of rows.
    NoPacking,
}

impl fmt::Display for Fault {
    fn fmt<W: fmt::Write>(&self, f: &mut fmt::Formatter<W>) -> fmt::Result {
        match self {
            Fault::Refused(error) => write!(f, "{error}"),
            Fault::InTransaction => f.write_str("a transaction is open"),
            Fault::NoPacking => f.write_str("what is kept are no plans"),
        }
    }
}

/// Why a call was refused.
#[derive(Clone, Copy)]
enum CallError {
    Fault(Fault),
    NoMemory,
}

/// Want of memory apart from all other causes.
fn call_error_of(error: Error) -> CallError {
    match error {
        Error::SqliteFailure(ErrorCode::OutOfMemory) => CallError::NoMemory,
        _ => CallError::Fault(Fault::Refused(error)),
    }
}

/// Keeps these rows in place of what was kept.
fn save_rows<S: Tells>(
    alloc: Global,
    connection: &mut Connection<S>,
    iteration: u32,
    rows: &[KeptRow],
) -> Result<(), CallError>
    ensures ok { OnOk result (Becomes (told S.Tells.tells (state S.Store connection.old))
        (told S.Tells.tells (state S.Store connection.new)) (Some (kept_of iteration rows.now))) }
    ensures err { OnErr result (StaysIfTold (told S.Tells.tells (state S.Store connection.old))
        (told S.Tells.tells (state S.Store connection.new))) }
    ensures crash { LeavesOldOr (state S.Store connection.old) (state S.Store connection.new) (Some (pos iteration, packing rows.now)) }
{
    let _schema = connection.schema();
    if !connection.is_autocommit() {
        return Err(CallError::Fault(Fault::InTransaction));
    }
    let bytes = match pack(alloc, rows) {
        Ok(bytes) => bytes,
        Err(AllocError) => return Err(CallError::NoMemory),
    };
    match save_in(connection, iteration, &bytes) {
        Ok(()) => Ok(()),
        Err(error) => Err(call_error_of(error)),
    }
}

/// The iteration and the body that are kept, if there are any.
fn kept_at<S: Tells>(connection: &mut Connection<S>) -> Result<Option<(u32, Vec<u8>)>, CallError>
    ensures last { IfOk result
        (λ found. IsTold (told S.Tells.tells (state S.Store connection.old)) (option_map (λ it. it.0) found)) }
    ensures loads { IfOk result (λ found. (before after : List KeptRow) → (found ≡ None → after ≡ before)
        → ((it : _) (rows : _) → found ≡ Some it → rows_in it.1.items ≡ Some rows → after ≡ before ++ rows)
        → Loads (told S.Tells.tells (state S.Store connection.old)) before after) }
    ensures ok { OnOk result (Stays (told S.Tells.tells (state S.Store connection.old))
        (told S.Tells.tells (state S.Store connection.new))) }
    ensures err { OnErr result (StaysIfTold (told S.Tells.tells (state S.Store connection.old))
        (told S.Tells.tells (state S.Store connection.new))) }
{
    if !connection.is_autocommit() {
        return Err(CallError::Fault(Fault::InTransaction));
    }
    match kept_in(connection) {
        Ok(found) => Ok(found),
        Err(error) => Err(call_error_of(error)),
    }
}

/// Puts the kept rows behind those of the list.
fn load_rows<S: Tells>(
    alloc: Global,
    connection: &mut Connection<S>,
    rows: &mut Vec<KeptRow>,
) -> Result<(), CallError>
    ensures loads { OnOk result (Loads (told S.Tells.tells (state S.Store connection.old)) rows.old.items rows.new.items) }
    ensures ok { OnOk result (Stays (told S.Tells.tells (state S.Store connection.old))
        (told S.Tells.tells (state S.Store connection.new))) }
    ensures err { OnErr result (StaysIfTold (told S.Tells.tells (state S.Store connection.old))
        (told S.Tells.tells (state S.Store connection.new))) }
{
    let (_, body) = match kept_at(connection) {
        Ok(None) => return Ok(()),
        Ok(Some(found)) => found,
        Err(error) => return Err(error),
    };
    let mut found = match unpack(alloc, &body) {
        Ok(Some(found)) => found,
        Ok(None) => return Err(CallError::Fault(Fault::NoPacking)),
        Err(AllocError) => return Err(CallError::NoMemory),
    };
    match rows.append(&mut found) {
        Ok(()) => Ok(()),
        Err(AllocError) => Err(CallError::NoMemory),
    }
}

/// A keeper over a connection to a database. A checkpoint is the one row of the table `kept`: its place, which is 0, the iteration, and the
/// packed rows; each call first makes the table where it is missing.
///
/// Over a store that stays clean it tells what it keeps, as long as the database has this table alone or none, and no transaction is open.
/// A call fails where the database refuses a statement for another cause than memory, where what is kept has another type or range, where
/// a transaction is open, and where the kept body is the packing of no rows.
#[derive(Drop)]
pub struct SqlKeeper<S: Tells> {
    connection: Connection<S>,
    faults: u64,
    fault: Option<Fault>,
    alloc: Global,
}

impl<S: Tells> SqlKeeper<S> {
    /// A keeper over this connection. Takes no memory.
    pub fn over(alloc: Global, connection: Connection<S>) -> Self
        ensures connection { result.connection ≡ connection }
        ensures faults { result.faults ≡ 0 }
    {
        SqlKeeper {
            connection,
            faults: 0,
            fault: None,
            alloc,
        }
    }

    /// The connection, as the last call left it. Takes no memory.
    pub fn close(self) -> Connection<S>
        ensures { result ≡ self.connection }
    {
        self.connection
    }

    /// Why the last call that failed did, where one has failed.
    pub fn fault(&self) -> Option<Fault>
        ensures { result ≡ self.now.fault }
    {
        self.fault
    }

    /// Counts a call that failed, and keeps why.
    fn fail(&mut self, error: CallError) -> KeepFail
        ensures connection { self.new.connection ≡ self.old.connection }
        ensures later { self.old.faults ≤ self.new.faults }
        ensures rose { result ≡ KeepFail.Failed → Rose self.old.faults self.new.faults }
    {
        match error {
            CallError::NoMemory => KeepFail::NoMemory,
            CallError::Fault(fault) => {
                self.faults = self.faults.saturating_add(1);
                self.fault = Some(fault);
                KeepFail::Failed
            }
        }
    }
}

impl<S: Tells> Keeper for SqlKeeper<S> {
    ghost kept = { λ k. told S.Tells.tells (state S.Store k.connection) };

    ghost faults = { λ k. k.faults };

    fn save(&mut self, iteration: u32, rows: &[KeptRow]) -> Result<(), KeepFail>
        ensures ok { OnOk result (Becomes (told S.Tells.tells (state S.Store self.old.connection))
            (told S.Tells.tells (state S.Store self.new.connection)) (Some (kept_of iteration rows.now))) }
        ensures err { OnErr result (KeepsOrBecomes (told S.Tells.tells (state S.Store self.old.connection))
            (told S.Tells.tells (state S.Store self.new.connection)) (kept_of iteration rows.now)) }
        ensures cause { KeepHasCause self.old.faults self.new.faults result }

        // A crash at any exit leaves the old or the new, whole, over any store that is still clean.
        ensures crash { LeavesOldOr (state S.Store self.old.connection) (state S.Store self.new.connection)
            (Some (pos iteration, packing rows.now)) }
    {
        match save_rows(self.alloc, &mut self.connection, iteration, rows) {
            Ok(()) => Ok(()),
            Err(error) => Err(self.fail(error)),
        }
    }

    fn last(&mut self) -> Result<Option<u32>, KeepFail> {
        match kept_at(&mut self.connection) {
            Ok(None) => Ok(None),
            Ok(Some((iteration, _))) => Ok(Some(iteration)),
            Err(error) => Err(self.fail(error)),
        }
    }

    fn load(&mut self, rows: &mut Vec<KeptRow>) -> Result<(), KeepFail> {
        match load_rows(self.alloc, &mut self.connection, rows) {
            Ok(()) => Ok(()),
            Err(error) => Err(self.fail(error)),
        }
    }
}
