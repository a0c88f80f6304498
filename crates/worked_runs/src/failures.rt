//! Reads and writes that fail: nothing is written behind a failed read, and each file is a front of its text behind a failed write.

use crate::cases::{Case, DRIVE, Status, inputs_of, is_written, status_of};
use edge_files::{MemoryInputs, MemoryOutputs, OutFile};
use std::alloc::Global;
use std::sync::Wait;
use std::thread::Threads;

/// A short day of one car, and what is written of it, file by file.
static SHORT: Case = Case {
    settings: "{\"end_second\":120}",
    ..DRIVE
};

const SHORT_EVENTS: &str = "iteration,0\n\
    100,actend,p1,,L1,home\n\
    100,departure,p1,,L1,car\n\
    100,PersonEntersVehicle,p1,p1,,\n\
    100,vehicle enters traffic,p1,p1,L1,\n\
    101,left link,,p1,L1,\n\
    101,entered link,,p1,L2,\n\
    111,vehicle leaves traffic,p1,p1,L2,\n\
    111,PersonLeavesVehicle,p1,p1,,\n\
    111,arrival,p1,,L2,car\n\
    111,actstart,p1,,L2,work\n";

const SHORT_SCORES: &str = "0,p1,0,-18326\n";

const SHORT_REPORT: &str = "iteration,0,10,0,-18326\ndone,0\n";

/// The length of the report's first line, behind which the plans are written.
const FIRST_LINE: usize = 24;

const SHORT_PLANS: &str = "person,plan,kind,name,link,time,route\n\
    p1,0,act,home,L1,100,\np1,0,leg,car,,,L1 L2\np1,0,act,work,L2,,\n";

/// A front of a text, of so many bytes where it has them.
fn front(text: &'static str, count: usize) -> &'static str {
    text.get(..count).unwrap_or(text)
}

/// How many of so many bytes are written where there is room for this many, with those before them.
fn within(room: usize, before: usize, count: usize) -> usize {
    room.saturating_sub(before).min(count)
}

/// Whether these outputs hold all that there is room for of the short day, and nothing where a read failed: its events, its scores,
/// the line of its report, its plans, and the last line of the report.
fn is_front_written(outputs: &MemoryOutputs, status: Status, room: usize) -> bool {
    let room = if status == Status::ReadFault { 0 } else { room };
    let scores = SHORT_EVENTS.len();
    let line = scores + SHORT_SCORES.len();
    let plans = line + FIRST_LINE;
    let done = plans + SHORT_PLANS.len();
    let last_line = SHORT_REPORT.len().saturating_sub(FIRST_LINE);
    let last = within(room, done, last_line);
    let report = within(room, line, FIRST_LINE).saturating_add(last);
    is_written(outputs, OutFile::Events, front(SHORT_EVENTS, room))
        && is_written(
            outputs,
            OutFile::Scores,
            front(SHORT_SCORES, within(room, scores, SHORT_SCORES.len())),
        )
        && is_written(outputs, OutFile::Report, front(SHORT_REPORT, report))
        && is_written(
            outputs,
            OutFile::Plans,
            front(SHORT_PLANS, within(room, plans, SHORT_PLANS.len())),
        )
}

/// The short day, where this call of reading fails.
fn short_inputs(alloc: Global, failing: u64) -> MemoryInputs {
    let mut inputs = inputs_of(alloc, &SHORT);
    let _ = inputs.fail_at(failing);
    inputs
}

/// The words of a run of the short day, and of two whose events are written while it runs: by one worker, and by two in two spans.
static RUN: [&str; 2] = ["qsim", "run"];

static STREAM: [&str; 3] = ["qsim", "run", "--stream"];

static STREAM_BY_TWO: [&str; 7] = [
    "qsim",
    "run",
    "--stream",
    "--partitions",
    "4",
    "--workers",
    "2",
];

/// Whether the short day ends so with these words where this call of reading fails and there is room for so many bytes in all.
fn ends_so<R: Threads + Wait + Sync>(
    rt: &R,
    alloc: Global,
    words: &[&str],
    failing: u64,
    room: usize,
    status: Status,
) -> bool {
    let mut inputs = short_inputs(alloc, failing);
    let mut outputs = MemoryOutputs::new(alloc);
    outputs.room(room as u64);
    let came = status_of(rt, alloc, words, &mut inputs, &mut outputs);
    came == status && is_front_written(&outputs, status, room)
}

/// The first call of reading, below this one, that may fail while something is written; or this one.
fn first_unheard<R: Threads + Wait + Sync>(rt: &R, alloc: Global, calls: u64) -> u64 {
    for call in 1..calls {
        if !ends_so(rt, alloc, &RUN, call, 1_000, Status::ReadFault) {
            return call;
        }
    }
    calls
}

/// Each read fails in turn, and nothing is written. Eight files are read by twelve calls: an empty one by one, another one by two.
#[test]
fn a_failing_read_writes_nothing(rt: HostRuntime) {
    assert_eq!(rt; first_unheard(&rt, rt.alloc(), 13), 13);
    assert!(rt; ends_so(&rt, rt.alloc(), &RUN, 13, 1_000, Status::Done));
}

/// The short day with settings that have a fault.
static FAULTY: Case = Case {
    settings: "{\"sead\":1}",
    ..DRIVE
};

/// Whether a last read that fails is told before the fault of the first file.
fn is_read_first<R: Threads + Wait + Sync>(rt: &R, alloc: Global) -> bool {
    let mut inputs = inputs_of(alloc, &FAULTY);
    let _ = inputs.fail_at(12);
    let mut outputs = MemoryOutputs::new(alloc);
    let came = status_of(rt, alloc, &["qsim", "run"], &mut inputs, &mut outputs);
    came == Status::ReadFault && is_written(&outputs, OutFile::Report, "")
}

/// All files are read before any of them is checked.
#[test]
fn files_are_read_before_they_are_checked(rt: HostRuntime) {
    assert!(rt; is_read_first(&rt, rt.alloc()));
}

/// The first number of bytes, below this one, for which there may be room while something else than a front is written; or this one.
fn first_torn<R: Threads + Wait + Sync>(
    rt: &R,
    alloc: Global,
    words: &[&str],
    whole: usize,
) -> usize {
    for room in 0..whole {
        if !ends_so(rt, alloc, words, 0, room, Status::WriteFault) {
            return room;
        }
    }
    whole
}

/// There is room for each number of bytes, and each file is a front of its text, also where the events are written while the day runs.
#[test]
fn a_failing_write_leaves_fronts(rt: HostRuntime) {
    let whole = SHORT_EVENTS.len() + SHORT_SCORES.len() + SHORT_PLANS.len() + SHORT_REPORT.len();
    assert_eq!(rt; first_torn(&rt, rt.alloc(), &RUN, whole), whole);
    assert_eq!(rt; first_torn(&rt, rt.alloc(), &STREAM, whole), whole);
    assert!(rt; ends_so(&rt, rt.alloc(), &STREAM, 0, whole, Status::Done));
    assert_eq!(rt; first_torn(&rt, rt.alloc(), &STREAM_BY_TWO, whole), whole);
    assert!(rt; ends_so(&rt, rt.alloc(), &STREAM_BY_TWO, 0, whole, Status::Done));
}

/// Five short days of a person who drives to work.
static FIVE_DAYS: Case = Case {
    settings: "{\"end_second\":120,\"last_iteration\":4}",
    ..DRIVE
};

/// How the short days end where there is room for so many bytes in all, and what they write.
fn short_days<R: Threads + Wait + Sync>(
    rt: &R,
    alloc: Global,
    room: usize,
) -> (Status, MemoryOutputs) {
    let mut inputs = inputs_of(alloc, &FIVE_DAYS);
    let mut outputs = MemoryOutputs::new(alloc);
    outputs.room(room as u64);
    let status = status_of(rt, alloc, &["qsim", "run"], &mut inputs, &mut outputs);
    (status, outputs)
}

/// The files in the order in which an iteration writes them, and the end.
const FILES: [OutFile; 4] = [
    OutFile::Events,
    OutFile::Scores,
    OutFile::Report,
    OutFile::Plans,
];

/// How many bytes were written in all.
fn count_written(outputs: &MemoryOutputs) -> usize {
    let mut count: usize = 0;
    for file in FILES {
        count = count.saturating_add(outputs.written(file).len());
    }
    count
}

/// Whether each file is a front of what is written in the end.
fn are_fronts(outputs: &MemoryOutputs, whole: &MemoryOutputs) -> bool {
    for file in FILES {
        if !whole.written(file).starts_with(outputs.written(file)) {
            return false;
        }
    }
    true
}

/// The first number of bytes from one on, and below another, for which there may be room while something else than a front is written; or
/// the other one.
fn first_torn_later<R: Threads + Wait + Sync>(
    rt: &R,
    alloc: Global,
    from: usize,
    whole: &MemoryOutputs,
    until: usize,
) -> usize {
    for room in from..until {
        let (status, outputs) = short_days(rt, alloc, room);
        if status != Status::WriteFault
            || count_written(&outputs) != room
            || !are_fronts(&outputs, whole)
        {
            return room;
        }
    }
    until
}

/// The bytes of an iteration of the short days: 293 of events, 14 of scores and 24 of the report.
const ITERATION: usize = 331;

/// There is room for each number of bytes up to the end of the fourth iteration, and each file is a front of its text.
#[test]
fn a_write_that_fails_later_leaves_fronts(rt: HostRuntime) {
    let alloc = rt.alloc();
    let (status, whole) = short_days(&rt, alloc, 10_000);
    assert!(rt; status == Status::Done);
    let (from, until) = (3 * ITERATION, 4 * ITERATION);
    assert_eq!(rt; first_torn_later(&rt, alloc, from, &whole, until), until);
}
