//! A disk that stops behind each call in turn while rows are saved twice.

use crate::tables::{ONE, TWO, holds, holds_nothing, saves};
use keep_sql::SqlKeeper;
use sqlite::{Connection, FileStore, Files, Options};
use sqlite_disk::{Crash, Fuse, Memory};
use std::alloc::Global;

/// The file of a database and its log, in memory, each of which stops behind some calls.
type Disks = Files<Fuse<Memory>>;

/// A database on such disks, and a keeper in it.
type Database = Connection<FileStore<Fuse<Memory>>>;

type Keeps = SqlKeeper<FileStore<Fuse<Memory>>>;

/// Empty disks, of which the log stops behind so many calls.
fn new_disks(alloc: Global, calls: u64) -> Disks {
    Files {
        log: Fuse::new(Memory::new(alloc), calls),
        db: Fuse::new(Memory::new(alloc), u64::MAX),
    }
}

/// The database on these disks; the disks again where they hold none that can be opened.
fn connect(alloc: Global, disks: Disks) -> Result<Database, Disks> {
    if !disks.may_be_used() {
        return Err(disks);
    }
    match Connection::open_files(alloc, disks, Options::new(1)) {
        Ok(database) => Ok(database),
        Err((_, left)) => Err(left.into_files()),
    }
}

/// A keeper in the database on these disks.
fn open(alloc: Global, disks: Disks) -> Result<Keeps, Disks> {
    match connect(alloc, disks) {
        Ok(database) => Ok(SqlKeeper::over(alloc, database)),
        Err(disks) => Err(disks),
    }
}

/// The disks of a database that is let go without a last word.
fn let_go(database: Database) -> Disks {
    database.into_store().close()
}

/// The disks of a keeper, as they are when its program ends without a last word.
fn disks_of(keeper: Keeps) -> Disks {
    let_go(keeper.close())
}

/// What a machine that stopped finds when it comes back: what was synced, on disks that go on.
fn restart(disks: &mut Disks) {
    disks.log.crash();
    disks.db.crash();
}

/// How many of two saves are done, one after the other, up to the first that fails.
fn count_saved(alloc: Global, keeper: &mut Keeps) -> u32 {
    if !saves(alloc, keeper, 3, &TWO) {
        return 0;
    }
    if !saves(alloc, keeper, 4, &ONE) {
        return 1;
    }
    2
}

/// Behind how many of these saves a keeper holds what it does; none where it holds something else or cannot tell.
fn count_held(alloc: Global, keeper: &mut Keeps) -> Option<u32> {
    if holds_nothing(alloc, keeper) {
        return Some(0);
    }
    if holds(alloc, keeper, 3, &TWO) {
        return Some(1);
    }
    if holds(alloc, keeper, 4, &ONE) {
        return Some(2);
    }
    None
}

/// How many saves are done on these disks, and how they are left.
fn save_twice(alloc: Global, disks: Disks) -> (u32, Disks) {
    match open(alloc, disks) {
        Ok(mut keeper) => {
            let saved = count_saved(alloc, &mut keeper);
            (saved, disks_of(keeper))
        }
        Err(disks) => (0, disks),
    }
}

/// Behind how many saves these disks hold what they do.
fn find(alloc: Global, disks: Disks) -> Option<u32> {
    match open(alloc, disks) {
        Ok(mut keeper) => {
            let held = count_held(alloc, &mut keeper);
            let _disks = disks_of(keeper);
            held
        }
        Err(_) => None,
    }
}

/// How many saves are done before the log stops behind so many calls, and behind how many of them the database is found again.
fn stop_behind(alloc: Global, calls: u64) -> (u32, Option<u32>) {
    let (saved, mut disks) = save_twice(alloc, new_disks(alloc, calls));
    restart(&mut disks);
    (saved, find(alloc, disks))
}

/// How many stops came before the first save was done, behind it, and behind both.
type Stops = (u64, u64, u64);

/// One more stop, behind so many saves.
fn with_stop(stops: Stops, saved: u32) -> Stops {
    let (before, between, behind) = stops;
    match saved {
        0 => (before.saturating_add(1), between, behind),
        1 => (before, between.saturating_add(1), behind),
        _ => (before, between, behind.saturating_add(1)),
    }
}

/// The stops behind these counts of calls, where each leaves the rows of the last save that was done, or of the one in whose midst it came,
/// whole; else none.
fn count_stops(alloc: Global, from: u64, end: u64) -> Option<Stops> {
    let mut stops = (0, 0, 0);
    for calls in from..end {
        let (saved, held) = stop_behind(alloc, calls);
        if held != Some(saved) && held != Some(saved.saturating_add(1)) {
            return None;
        }
        stops = with_stop(stops, saved);
    }
    Some(stops)
}

/// The stops in the midst of the opening of a new database.
#[test]
fn an_early_stop_leaves_nothing(rt: HostRuntime) {
    assert!(rt; count_stops(rt.alloc(), 0, 12) == Some((12, 0, 0)));
}

#[test]
fn a_later_stop_leaves_nothing(rt: HostRuntime) {
    assert!(rt; count_stops(rt.alloc(), 12, 24) == Some((12, 0, 0)));
}

/// The stops in the midst of the two saves, up to one behind which both are done.
#[test]
fn a_stop_in_a_save_leaves_the_old_or_the_new(rt: HostRuntime) {
    let stops = count_stops(rt.alloc(), 24, 36);
    assert!(rt;
        matches!(stops, Some((before, between, behind)) if before > 1 && between > 1 && behind > 0)
    );
}

/// Where the log never stops both saves are done, and the second one is found again.
#[test]
fn a_log_that_goes_on_keeps_the_last(rt: HostRuntime) {
    assert!(rt; stop_behind(rt.alloc(), u64::MAX) == (2, Some(2)));
}
