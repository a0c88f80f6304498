// Rings of 64 partitions, on one thread and on four.
ghost use Rattle.std.specs.Prelude.{◌≡◌, ◌≤◌, IfOk};
ghost use Rattle.cells.specs.Pairs.{ArePairs};

use crate::trials::runs;
use std::alloc::{AllocError, Global};
use std::thread::Threads;

/// The pairs of a ring of partitions: from each to the next the lag `there`, and back the lag `back`.
fn ring_pairs(
    alloc: Global,
    count: u32,
    there: u32,
    back: u32,
) -> Result<Vec<(u32, u32, u32, u32)>, AllocError>
    requires count { (3 ≤ count) × (count ≤ 64) }
    requires there { (1 ≤ there) × (there ≤ 32) }
    requires back { (1 ≤ back) × (back ≤ 32) }
    ensures { IfOk result (λ v. ArePairs count v.items) }
{
    let mut pairs = Vec::new(alloc);
    pairs.push((0, count - 1, back, there))?;
    for p in 0..count - 1 {
        pairs.push((p, p + 1, there, back))?;
    }
    Ok(pairs)
}

/// Runs a ring of partitions for so many seconds, in lists of `size` members, each list in a thread of its own where one can be made.
/// Answers as `runs` does.
pub(crate) fn runs_ring<R: Threads + Sync>(
    rt: &R,
    alloc: Global,
    count: u32,
    size: usize,
    lags: (u32, u32),
    seconds: u32,
) -> bool
    requires count { (3 ≤ count) × (count ≤ 64) }
    requires size { 1 ≤ size }
    requires lags { (1 ≤ lags.0) × (lags.0 ≤ 32) × (1 ≤ lags.1) × (lags.1 ≤ 32) }
{
    let (there, back) = lags;
    match ring_pairs(alloc, count, there, back) {
        Ok(pairs) => runs(rt, alloc, count, pairs.as_slice(), size, seconds),
        Err(_) => false,
    }
}

#[test]
fn ring_on_one_thread(rt: HostRuntime) {
    assert!(rt; runs_ring(&rt, rt.alloc(), 64, 64, (1, 1), 1000));
    assert!(rt; runs_ring(&rt, rt.alloc(), 64, 64, (32, 32), 1000));
}

#[test]
fn ring_on_four_threads(rt: HostRuntime) {
    assert!(rt; runs_ring(&rt, rt.alloc(), 64, 16, (1, 1), 1000));
    assert!(rt; runs_ring(&rt, rt.alloc(), 64, 16, (10, 20), 1000));
    assert!(rt; runs_ring(&rt, rt.alloc(), 64, 16, (32, 32), 1000));
}
