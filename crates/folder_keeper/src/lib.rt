//! The keeper in the file `kept.db` of the current folder.
//!
//! What the file holds is not told: no contract can say what a disk gives back. The count of faults is.
#![tactic(auto)]

ghost use Rattle.std.specs.Prelude.{◌≡◌, ◌≢◌, ◌≤◌, None, OnOk, IsSome, unwrap_or};
ghost use Rattle.edge_files.specs.Causes.{KeepHasCause, Rose};

use edge_files::{KeepFail, Keeper, KeptRow};
use keep_sql::{Fault, SqlKeeper, Tells};
use sqlite::{Connection, Error, ErrorCode, File, FileStore};
use std::io::Eprint;

/// The database of the current folder.
const NAME: &str = "kept.db";

/// Says that the first save of a run is to replace what a run before kept.
fn tell_iteration(rt: &HostRuntime, iteration: u32) {
    let _ = eprintln!(rt;
        "qsim: {NAME} holds iteration {iteration} of a run before, which this run is to replace"
    );
}

/// Says why the database could not be opened.
fn tell_unopened(rt: &HostRuntime, error: Error) {
    let _ = eprintln!(rt; "qsim: {NAME} could not be opened: {error}");
}

/// Says why a call failed.
fn tell_cause(rt: &HostRuntime, done: &str, cause: Fault) {
    let _ = eprintln!(rt; "qsim: {NAME} could not be {done}: {cause}");
}

/// Says that the log could not be copied into the database, and why.
fn tell_apart(rt: &HostRuntime, error: Error) {
    let _ = eprintln!(rt;
        "qsim: {NAME} and {NAME}-wal belong together, since the one could not be copied into the other: {error}"
    );
}

/// A keeper in the database of the current folder, or why that could not be opened.
fn opened(rt: &HostRuntime) -> Result<SqlKeeper<FileStore<File>>, Error> {
    match Connection::open(rt, NAME) {
        Ok(connection) => Ok(SqlKeeper::over(rt.alloc(), connection)),
        Err(error) => Err(error),
    }
}

/// Says what a database holds that the first save of a run is to replace, where it holds anything that can be read. Answers why it could
/// not be looked at, where that failed.
fn tell_replaced<S: Tells>(rt: &HostRuntime, keeper: &mut SqlKeeper<S>) -> Option<Fault> {
    match keeper.last() {
        Ok(None) => None,
        Ok(Some(iteration)) => {
            tell_iteration(rt, iteration);
            None
        }
        Err(_) => keeper.fault(),
    }
}

/// A call that an open database refused, and why it did. The calls below that answer one promise nothing, and no clause is meant: what the
/// file holds is not told, and that a fault is counted is the clause of `FolderKeeper::refuse`, to which each refusal goes.
type Refusal = (KeepFail, Option<Fault>);

/// Saves rows in an open database. Where it was opened for that, what it holds is told first, and why it could not be looked at is kept.
fn save_in<S: Tells>(
    rt: &HostRuntime,
    opened: &mut Option<SqlKeeper<S>>,
    unread: &mut Option<Fault>,
    replaces: bool,
    iteration: u32,
    rows: &[KeptRow],
) -> Result<(), Refusal>
    requires { IsSome opened.old }
{
    let keeper = match opened {
        Some(keeper) => keeper,
        None => unreachable!(),
    };
    if replaces {
        *unread = tell_replaced(rt, keeper);
    }
    match keeper.save(iteration, rows) {
        Ok(()) => Ok(()),
        Err(fail) => Err((fail, keeper.fault())),
    }
}

/// The iteration that an open database keeps.
fn last_in<S: Tells>(opened: &mut Option<SqlKeeper<S>>) -> Result<Option<u32>, Refusal>
    requires { IsSome opened.old }
{
    let keeper = match opened {
        Some(keeper) => keeper,
        None => unreachable!(),
    };
    match keeper.last() {
        Ok(last) => Ok(last),
        Err(fail) => Err((fail, keeper.fault())),
    }
}

/// Puts the rows that an open database keeps behind those of the list.
fn load_in<S: Tells>(
    opened: &mut Option<SqlKeeper<S>>,
    rows: &mut Vec<KeptRow>,
) -> Result<(), Refusal>
    requires { IsSome opened.old }
{
    let keeper = match opened {
        Some(keeper) => keeper,
        None => unreachable!(),
    };
    match keeper.load(rows) {
        Ok(()) => Ok(()),
        Err(fail) => Err((fail, keeper.fault())),
    }
}

/// The cause of a fault: the earlier fault, if there was one, where the database only says that an earlier failure closed it.
fn cause_of(fault: Fault, earlier: Option<Fault>) -> Fault
    ensures closed { fault ≡ Fault.Refused (Error.SqliteFailure ErrorCode.Closed) → result ≡ unwrap_or earlier fault }
    ensures open { fault ≢ Fault.Refused (Error.SqliteFailure ErrorCode.Closed) → result ≡ fault }
{
    if fault == Fault::Refused(Error::SqliteFailure(ErrorCode::Closed)) {
        earlier.unwrap_or(fault)
    } else {
        fault
    }
}

/// A keeper in the file `kept.db` of the current folder, which is opened, and made where it is missing, at the first call: a command that
/// keeps nothing makes no file. A line on standard error says why a call failed, and one says before the first save of a run what
/// it is to replace of another one. What the file holds is not told.
///
/// While it is open no other program can use it. What is saved stands in `kept.db` and in its log `kept.db-wal`, which belong together,
/// until the keeper is closed, and then in `kept.db` alone.
#[derive(Drop)]
pub struct FolderKeeper<'a> {
    rt: &'a HostRuntime,
    opened: Option<SqlKeeper<FileStore<File>>>,
    /// Why the database could not be looked at before the first save, where that failed.
    unread: Option<Fault>,
    faults: u64,
}

impl<'a> FolderKeeper<'a> {
    /// No file is opened yet.
    pub fn new(rt: &'a HostRuntime) -> Self
        ensures { result.faults ≡ 0 }
    {
        FolderKeeper {
            rt,
            opened: None,
            unread: None,
            faults: 0,
        }
    }

    /// Opens the database, unless it is open. Answers whether it was opened now.
    fn open(&mut self) -> Result<bool, KeepFail>
        ensures cause { KeepHasCause self.old.faults self.new.faults result }
        ensures opened { OnOk result (IsSome self.new.opened) }
    {
        if self.opened.is_some() {
            return Ok(false);
        }
        match opened(self.rt) {
            Ok(keeper) => {
                self.opened = Some(keeper);
                Ok(true)
            }
            Err(error) => Err(self.refuse_opening(error)),
        }
    }

    /// Counts that the database could not be opened, and says why, unless memory was wanting.
    fn refuse_opening(&mut self, error: Error) -> KeepFail
        ensures later { self.old.faults ≤ self.new.faults }
        ensures rose { result ≡ KeepFail.Failed → Rose self.old.faults self.new.faults }
    {
        if error == Error::SqliteFailure(ErrorCode::OutOfMemory) {
            return KeepFail::NoMemory;
        }
        self.faults = self.faults.saturating_add(1);
        tell_unopened(self.rt, error);
        KeepFail::Failed
    }

    /// Counts a call that failed, and says why it did.
    fn refuse(&mut self, fail: KeepFail, fault: Option<Fault>, done: &str) -> KeepFail
        ensures same { result ≡ fail }
        ensures later { self.old.faults ≤ self.new.faults }
        ensures rose { fail ≡ KeepFail.Failed → Rose self.old.faults self.new.faults }
    {
        if fail == KeepFail::Failed {
            self.faults = self.faults.saturating_add(1);
            self.tell(fault, done);
        }
        fail
    }

    /// Says why the last call of the database failed.
    fn tell(&self, fault: Option<Fault>, done: &str) {
        if let Some(fault) = fault {
            let cause = cause_of(fault, self.unread);
            tell_cause(self.rt, done, cause);
        }
    }

    /// Copies the log into `kept.db` and closes the files, where they are open. What was saved is kept also where that fails.
    pub fn close(self) {
        let FolderKeeper {
            rt,
            opened,
            unread: _,
            faults: _,
        } = self;
        let Some(keeper) = opened else {
            return;
        };
        if let Err(error) = keeper.close().close() {
            tell_apart(rt, error);
        }
    }
}

impl Keeper for FolderKeeper<'_> {
    ghost kept = { λ _. None };

    ghost faults = { λ k. k.faults };

    fn save(&mut self, iteration: u32, rows: &[KeptRow]) -> Result<(), KeepFail> {
        let replaces = match self.open() {
            Ok(replaces) => replaces,
            Err(fail) => return Err(fail),
        };
        match save_in(
            self.rt,
            &mut self.opened,
            &mut self.unread,
            replaces,
            iteration,
            rows,
        ) {
            Ok(()) => Ok(()),
            Err((fail, fault)) => Err(self.refuse(fail, fault, "written")),
        }
    }

    fn last(&mut self) -> Result<Option<u32>, KeepFail> {
        if let Err(fail) = self.open() {
            return Err(fail);
        }
        match last_in(&mut self.opened) {
            Ok(last) => Ok(last),
            Err((fail, fault)) => Err(self.refuse(fail, fault, "read")),
        }
    }

    fn load(&mut self, rows: &mut Vec<KeptRow>) -> Result<(), KeepFail> {
        if let Err(fail) = self.open() {
            return Err(fail);
        }
        match load_in(&mut self.opened, rows) {
            Ok(()) => Ok(()),
            Err((fail, fault)) => Err(self.refuse(fail, fault, "read")),
        }
    }
}
