//! Gates: a run passes them before each second of a partition, and its workers go on as far as their neighbours let them.

use crate::cases::{APART, Case, DRIVE, Status, are_same, inputs_of, status_through};
use edge_files::{Gate, MemoryOutputs, OpenGate};
use std::alloc::Global;
use std::sync::Wait;
use std::thread::Threads;
use step_cases::{Ahead, InTurn, Meeting};

/// A person who drives to work through four partitions, by number, in 300 seconds.
static DAY: Case = Case {
    settings: "{\"end_second\":300}",
    nodes: APART,
    ..DRIVE
};

/// The same where a hole takes twenty seconds along a link: between two partitions the lag is ten seconds one way and twenty the other.
static DAY_WITH_HOLES: Case = Case {
    settings: "{\"end_second\":300,\"hole_speed\":500}",
    nodes: APART,
    ..DRIVE
};

/// How a run of a day with these words ends through a gate, and what it writes.
fn came_through<R: Threads + Wait + Sync, G: Gate>(
    rt: &R,
    alloc: Global,
    words: &[&str],
    day: &Case,
    gate: &G,
) -> (Status, MemoryOutputs) {
    let mut inputs = inputs_of(alloc, day);
    let mut outputs = MemoryOutputs::new(alloc);
    let status = status_through(rt, alloc, words, &mut inputs, &mut outputs, gate);
    (status, outputs)
}

/// A run in four partitions: by four workers, by four whose events are written while the day runs, and by one.
static BY_FOUR: [&str; 6] = ["qsim", "run", "--partitions", "4", "--workers", "4"];

static STREAMED: [&str; 7] = [
    "qsim",
    "run",
    "--stream",
    "--partitions",
    "4",
    "--workers",
    "4",
];

static BY_ONE: [&str; 6] = ["qsim", "run", "--partitions", "4", "--workers", "1"];

/// Whether a run of a day with these words is done through a gate, and writes what the plain run does.
fn is_the_same<R: Threads + Wait + Sync, G: Gate>(
    rt: &R,
    alloc: Global,
    words: &[&str],
    day: &Case,
    gate: &G,
) -> bool {
    let (spread, outputs) = came_through(rt, alloc, words, day, gate);
    let (plain, same) = came_through(rt, alloc, &["qsim", "run"], day, &OpenGate::new());
    spread == Status::Done && plain == Status::Done && are_same(&outputs, &same)
}

/// Whether four come to the first second of a day before any of them does it.
fn all_meet<R: Threads + Wait + Sync>(rt: &R, alloc: Global, words: &[&str], day: &Case) -> bool {
    let gate = Meeting::new();
    is_the_same(rt, alloc, words, day, &gate) && gate.met() == 4
}

/// Whether one gets three seconds of a day ahead of another, and each partition passes its 300 seconds in order.
fn one_gets_ahead<R: Threads + Wait + Sync>(
    rt: &R,
    alloc: Global,
    words: &[&str],
    day: &Case,
) -> bool {
    let gate = Ahead::new();
    is_the_same(rt, alloc, words, day, &gate) && gate.failed() == 0 && gate.passes() == [300; 4]
}

/// Whether the partitions of a day are taken in turn: in each second each of them, to and fro by number.
fn are_in_turn<R: Threads + Wait + Sync>(
    rt: &R,
    alloc: Global,
    words: &[&str],
    day: &Case,
) -> bool {
    let gate = InTurn::new();
    is_the_same(rt, alloc, words, day, &gate) && gate.wrong() == 0 && gate.passes() == 1200
}

/// Four workers come to the first second all four: not so on one thread.
#[test]
fn workers_meet(rt: HostRuntime) {
    assert!(rt; all_meet(&rt, rt.alloc(), &BY_FOUR, &DAY));
    assert!(rt; all_meet(&rt, rt.alloc(), &BY_FOUR, &DAY_WITH_HOLES));
}

/// So they do where events are written while the day runs.
#[test]
fn workers_of_a_streamed_day_meet(rt: HostRuntime) {
    assert!(rt; all_meet(&rt, rt.alloc(), &STREAMED, &DAY));
    assert!(rt; all_meet(&rt, rt.alloc(), &STREAMED, &DAY_WITH_HOLES));
}

/// One worker gets three seconds ahead of another: not so with a barrier in each second.
#[test]
fn workers_run_side_by_side(rt: HostRuntime) {
    assert!(rt; one_gets_ahead(&rt, rt.alloc(), &BY_FOUR, &DAY));
    assert!(rt; one_gets_ahead(&rt, rt.alloc(), &BY_FOUR, &DAY_WITH_HOLES));
}

/// The same where events are written while the day runs.
#[test]
fn workers_of_a_streamed_day_run_side_by_side(rt: HostRuntime) {
    assert!(rt; one_gets_ahead(&rt, rt.alloc(), &STREAMED, &DAY));
    assert!(rt; one_gets_ahead(&rt, rt.alloc(), &STREAMED, &DAY_WITH_HOLES));
}

/// One worker takes the partitions in turn.
#[test]
fn one_worker_takes_turns(rt: HostRuntime) {
    assert!(rt; are_in_turn(&rt, rt.alloc(), &BY_ONE, &DAY));
    assert!(rt; are_in_turn(&rt, rt.alloc(), &BY_ONE, &DAY_WITH_HOLES));
}
