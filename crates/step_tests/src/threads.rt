//! Days of partitions on several threads.

ghost use Rattle.std.specs.Prelude.{◌≤◌, ◌<◌};

use crate::counters::Counter;
use crate::results::are_right;
use crate::rows::{Row, in_row};
use edge_files::{Gate, OpenGate};
use std::alloc::Global;
use std::sync::Wait;
use std::thread::Threads;
use step_cases::{Ahead, Meeting, alone};
use workers::{Crew, Running, run_day};

/// How much there is told to be in the first partitions: the third is the heaviest, then the first, the fourth and the second, and after
/// them come those of which nothing is told.
static LOADS: [usize; 4] = [5, 1, 9, 3];

/// Whether a day of so many workers ends with all partitions right.
#[tactic(auto, using(crate::proofs::Neighbours::net_is))]
fn day<R: Threads + Wait + Sync, G: Gate>(
    rt: &R,
    alloc: Global,
    run: &Row,
    workers: u32,
    gate: &G,
) -> bool
    requires { (1 ≤ workers) × (workers ≤ 64) }
{
    let crew = Crew {
        rt,
        gate,
        workers,
        loads: &LOADS,
    };
    match run_day::<Counter, R, G>(&crew, alloc, run) {
        Ok(parts) => are_right(run, parts.as_slice()),
        Err(_) => false,
    }
}

#[test]
fn one_to_five_workers(rt: HostRuntime) {
    let four = in_row(4, 5, 2000);
    for workers in 1..6u32 {
        assert!(rt; day(&rt, rt.alloc(), &four, workers, &OpenGate));
    }
}

#[test]
fn many_partitions(rt: HostRuntime) {
    assert!(rt; day(&rt, rt.alloc(), &in_row(64, 32, 200), 3, &OpenGate));
}

#[test]
fn one_partition_and_none(rt: HostRuntime) {
    assert!(rt; day(&rt, rt.alloc(), &in_row(1, 1, 100), 4, &OpenGate));
    assert!(rt; day(&rt, rt.alloc(), &in_row(0, 1, 100), 64, &OpenGate));
}

/// All four are in their first second at once: no body on one thread gets there.
#[test]
fn four_threads_meet(rt: HostRuntime) {
    let gate = Meeting::new();
    assert!(rt; day(&rt, rt.alloc(), &in_row(4, 1, 300), 4, &gate));
    assert!(rt; gate.met() == 4);
}

/// Partition 3 gets three seconds ahead of partition 0, as far as lags of 1 let it: no body with a barrier in each second gets there. The
/// passes of each partition are the seconds 0 to 299 in order.
#[test]
fn no_barrier(rt: HostRuntime) {
    let gate = Ahead::new();
    assert!(rt; day(&rt, rt.alloc(), &in_row(4, 1, 300), 4, &gate));
    assert!(rt; gate.failed() == 0);
    assert!(rt; gate.passes() == [300; 4]);
}

/// Whether a day of so many workers finds no memory.
#[tactic(auto, using(crate::proofs::Neighbours::net_is))]
fn is_refused<R: Threads + Wait + Sync>(rt: &R, alloc: Global, run: &Row, workers: u32) -> bool
    requires { (1 ≤ workers) × (workers ≤ 64) }
{
    let crew = Crew {
        rt,
        gate: &OpenGate,
        workers,
        loads: &LOADS,
    };
    run_day::<Counter, R, OpenGate>(&crew, alloc, run).is_err()
}

/// A partition that finds no memory ends the day of all, on however many threads.
#[test]
fn no_memory(rt: HostRuntime) {
    let mut four = in_row(4, 1, 300);
    four.poor = Some(2);
    for workers in 1..5u32 {
        assert!(rt; is_refused(&rt, rt.alloc(), &four, workers));
    }
}

/// Whether a day that stops before a second, with its threads joined, and then goes on to its end has all partitions right.
#[tactic(auto, using(crate::proofs::Neighbours::net_is))]
fn day_in_two<R: Threads + Wait + Sync>(
    rt: &R,
    alloc: Global,
    run: &Row,
    workers: u32,
    stop: u32,
) -> bool
    requires some { 1 ≤ run.now.count }
    requires workers { 1 ≤ workers }
    requires in_day { stop ≤ run.now.end }
{
    let Ok(running) = Running::<Counter>::start(alloc, run, workers, &LOADS) else {
        return false;
    };
    let Ok(stopped) = running.run_until(rt, &OpenGate, run, stop) else {
        return false;
    };
    let Ok(ended) = stopped.run_until(rt, &OpenGate, run, run.end) else {
        return false;
    };
    match ended.into_parts(alloc, run) {
        Ok(parts) => are_right(run, parts.as_slice()),
        Err(_) => false,
    }
}

/// The seconds before which a day of 300 seconds stops: at once, within the longest lag of 5 seconds and behind it, and at its end.
static STOPS: [u32; 6] = [0, 1, 5, 64, 299, 300];

#[test]
fn a_stopped_day_goes_on(rt: HostRuntime) {
    for workers in 1..5u32 {
        for stop in STOPS {
            assert!(rt; day_in_two(&rt, rt.alloc(), &in_row(4, 5, 300), workers, stop.min(300)));
        }
    }
}

/// How many seconds partition 1 comes to in a bundle of its own, while its neighbours stand still.
#[tactic(auto, using(crate::proofs::Neighbours::net_is))]
fn one_of(alloc: Global, run: &Row) -> Option<u32>
    requires { 1 < run.now.count }
{
    alone::<Counter>(alloc, run, 1)
}

/// It does the one second that needs no neighbour, and is given back.
#[test]
fn one_alone(rt: HostRuntime) {
    assert!(rt; one_of(rt.alloc(), &in_row(4, 1, 300)) == Some(1));
}
