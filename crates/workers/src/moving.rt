//! The members of a run, spread over threads until all have come to a second.

ghost use Rattle.std.specs.Prelude.{◌≡◌, ℕ, ◌<◌, ◌≤◌, true, false, length, slice_index_or, IfOk};
ghost use Rattle.workers.specs.Members.{IsBoardOfRun, AreMembers, AllEnd, Ran, SomeStopped, RunSpread, Went, is_stopped};

use crate::bundles::run_members;
use crate::members::{Bundle, Member, ParcelsOf};
use cells::Board;
use edge_files::Gate;
use std::alloc::AllocError;
use std::sync::Wait;
use std::thread::{Threads, for_each_chunk_mut};
use step_core::Part;

/// Runs the members to a second in as many lists of one size as there are workers, or fewer: each list in a thread of its own, where one
/// can be made, and else in this one.
fn run_spread<T: Part + Send, R: Threads + Sync, G: Gate>(
    rt: &R,
    gate: &G,
    run: &T::Run,
    board: &Board<ParcelsOf<T>>,
    until: u32,
    workers: u32,
    members: &mut [Member<T>],
)
where
    T::Run: Send + Sync,
    T::Parcel: Send + Sync,
    requires in_run { until ≤ (T.net run.now).end }
    requires workers { 1 ≤ workers }
    requires board { IsBoardOfRun T.net T.borders T.nothing T.right run.now board.now }
    requires members { AreMembers until T.borders T.nothing T.see T.stands T.spent T.right run.now board.now members.old }
    ensures { RunSpread until T.borders T.nothing T.see T.stands T.spent T.right run.now board.now members.old members.new }
{
    let size = members.len().div_ceil(workers as usize).max(1);
    for_each_chunk_mut(
        rt,
        members,
        size,
        &|_, list: &mut [Member<T>]|
            requires { (until ≤ (T.net run.now).end) × IsBoardOfRun T.net T.borders T.nothing T.right run.now board.now
                × AreMembers until T.borders T.nothing T.see T.stands T.spent T.right run.now board.now list.now }
            ensures { Ran until T.borders T.nothing T.see T.stands T.spent T.right run.entry.now board.entry.now list.entry.now
                list.exit.now }
        { run_members(gate, run, board, until, list) },
    );
}

/// Runs the members of a bundle, in such lists.
fn run_lists<T: Part + Send, R: Threads + Sync, G: Gate>(
    rt: &R,
    gate: &G,
    run: &T::Run,
    board: &Board<ParcelsOf<T>>,
    until: u32,
    workers: u32,
    mut bundle: Bundle<T>,
) -> Bundle<T>
where
    T::Run: Send + Sync,
    T::Parcel: Send + Sync,
    requires in_run { until ≤ (T.net run.now).end }
    requires workers { 1 ≤ workers }
    requires board { IsBoardOfRun T.net T.borders T.nothing T.right run.now board.now }
    requires members { AreMembers until T.borders T.nothing T.see T.stands T.spent T.right run.now board.now bundle.members.items }
    ensures { RunSpread until T.borders T.nothing T.see T.stands T.spent T.right run.now board.now bundle.members.items
        result.members.items }
{
    run_spread(
        rt,
        gate,
        run,
        board,
        until,
        workers,
        bundle.members.as_mut_slice(),
    );
    bundle
}

/// Whether all have done so many seconds, and none was stopped.
#[tactic(auto, using(crate::proofs::Starting::ends_at))]
fn all_ended<T: Part>(until: u32, members: &[Member<T>]) -> bool
where
    T::Parcel: Send,
    ensures yes { result ≡ true → AllEnd until members.now }
    ensures no { AllEnd until members.now → result ≡ true }
{
    for k in 0..members.len() {
        if members[k].is_stopped() || members[k].done() != until {
            return false;
        }
    }
    true
}

/// Whether some member found no memory.
fn some_stopped<T: Part>(members: &[Member<T>]) -> bool
where
    T::Parcel: Send,
    ensures some { result ≡ true → SomeStopped members.now }
    ensures none { result ≡ false → (i : ℕ) (d : _) → i < length members.now
        → is_stopped (slice_index_or members.now i d) ≡ false }
{
    for k in 0..members.len() {
        if members[k].is_stopped() {
            return true;
        }
    }
    false
}

/// Partitions that have all come to a second, and how many workers brought them there at last.
#[derive(Drop)]
pub(crate) struct Arrived<T: Part>
where
    T::Parcel: Send,
{
    pub(crate) bundle: Bundle<T>,
    pub(crate) workers: u32,
}

/// Spreads the members over the workers, again and again, until all have come to a second. A worker whose neighbours get no processor for
/// long comes back before that; then half as many workers go on, and at last this thread alone, so that a day comes to its end also where
/// no thread can be started. How many went on at last is told, so that nobody waits for the others once more in a later span.
///
/// # Errors
///
/// `AllocError`: some member found no memory.
pub(crate) fn run_to<T: Part + Send, R: Threads + Wait + Sync, G: Gate>(
    rt: &R,
    gate: &G,
    run: &T::Run,
    board: &Board<ParcelsOf<T>>,
    until: u32,
    mut workers: u32,
    mut bundle: Bundle<T>,
) -> Result<Arrived<T>, AllocError>
where
    T::Run: Send + Sync,
    T::Parcel: Send + Sync,
    requires in_run { until ≤ (T.net run.now).end }
    requires workers { 1 ≤ workers }
    requires board { IsBoardOfRun T.net T.borders T.nothing T.right run.now board.now }
    requires members { AreMembers until T.borders T.nothing T.see T.stands T.spent T.right run.now board.now bundle.members.items }
    ensures went { IfOk result (λ a. Went until T.borders T.nothing T.see T.stands T.spent T.right run.now board.now bundle.members.items
        a.bundle.members.items) }
    ensures end { IfOk result (λ a. AllEnd until a.bundle.members.items) }
    ensures some { IfOk result (λ a. 1 ≤ a.workers) }
{
    for _ in rt.forever() {
        bundle = run_lists(rt, gate, run, board, until, workers, bundle);
        if all_ended(until, bundle.members.as_slice()) {
            return Ok(Arrived { bundle, workers });
        }
        if some_stopped(bundle.members.as_slice()) {
            return Err(AllocError);
        }
        workers = (workers / 2).max(1);
    }
    unreachable!()
}
