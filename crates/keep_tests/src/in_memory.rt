//! The keeper in memory.

use crate::tables::{ONE, TWO, holds, holds_nothing, saves};
use edge_files::{KeepFail, Keeper};
use keep::MemoryKeeper;
use std::alloc::Global;

/// Whether a keeper that holds nothing keeps the last rows that are saved.
fn keeps_each<K: Keeper>(alloc: Global, keeper: &mut K) -> bool {
    holds_nothing(alloc, keeper)
        && saves(alloc, keeper, 3, &TWO)
        && holds(alloc, keeper, 3, &TWO)
        && saves(alloc, keeper, 4, &ONE)
        && holds(alloc, keeper, 4, &ONE)
        && saves(alloc, keeper, 5, &[])
        && holds(alloc, keeper, 5, &[])
}

/// Whether a new keeper does so.
fn keeps_the_last(alloc: Global) -> bool {
    let mut keeper = MemoryKeeper::new(alloc);
    let kept = keeps_each(alloc, &mut keeper);
    drop(keeper);
    kept
}

/// Whether the second save fails, keeps what was kept, and later calls do not fail.
fn fails_once<K: Keeper>(alloc: Global, keeper: &mut K) -> bool {
    saves(alloc, keeper, 3, &TWO)
        && keeper.save(4, &[]) == Err(KeepFail::Failed)
        && holds(alloc, keeper, 3, &TWO)
        && saves(alloc, keeper, 4, &ONE)
        && holds(alloc, keeper, 4, &ONE)
}

/// Whether a keeper that is told to fail at its second call does so.
fn fails_as_told(alloc: Global) -> bool {
    let mut keeper = MemoryKeeper::new(alloc);
    let _ = keeper.fail_at(2);
    let failed = fails_once(alloc, &mut keeper);
    drop(keeper);
    failed
}

/// Whether `last` and `load` fail once, and what was kept is kept.
fn fails_twice<K: Keeper>(alloc: Global, keeper: &mut K) -> bool {
    let mut rows = Vec::new(alloc);
    saves(alloc, keeper, 3, &TWO)
        && keeper.last() == Err(KeepFail::Failed)
        && keeper.load(&mut rows) == Err(KeepFail::Failed)
        && rows.is_empty()
        && holds(alloc, keeper, 3, &TWO)
}

/// Whether `last` and `load` fail as they are told.
fn fails_to_tell(alloc: Global) -> bool {
    let mut keeper = MemoryKeeper::new(alloc);
    let _ = keeper.fail_at(2);
    let _ = keeper.fail_at(3);
    let failed = fails_twice(alloc, &mut keeper);
    drop(keeper);
    failed
}

#[test]
fn keeps_in_memory(rt: HostRuntime) {
    assert!(rt; keeps_the_last(rt.alloc()));
    assert!(rt; fails_as_told(rt.alloc()));
    assert!(rt; fails_to_tell(rt.alloc()));
}
