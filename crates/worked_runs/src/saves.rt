//! Saves that fail, runs that go on from the save before, and commands that leave what is kept alone.

use crate::cases::{Case, DRIVE, Status, WALK, inputs_of, is_written, status_with};
use edge_files::{Keeper, MemoryOutputs, OutFile};
use keep::MemoryKeeper;
use std::alloc::Global;
use std::sync::Wait;
use std::thread::Threads;

/// How many days a run has.
const DAYS: u64 = 6;

/// Six days of an hour of a person who moves the end of an activity before each of them but the first.
static SHORT: Case = Case {
    settings: "{\"end_second\":3600,\"last_iteration\":5,\"weight_keep\":0,\"weight_time\":1}",
    ..WALK
};

/// A day of a person who drives to work.
static ONE_DRIVE: Case = DRIVE;

/// How a command ends on a case with a keeper, and what it writes.
pub(crate) fn came_of<R: Threads + Wait + Sync, K: Keeper>(
    rt: &R,
    alloc: Global,
    words: &[&str],
    case: &Case,
    keeper: &mut K,
) -> (Status, MemoryOutputs) {
    let mut inputs = inputs_of(alloc, case);
    let mut outputs = MemoryOutputs::new(alloc);
    let status = status_with(rt, alloc, words, &mut inputs, &mut outputs, keeper);
    (status, outputs)
}

/// A keeper of which this call fails, counted from 1.
fn failing_keeper(alloc: Global, call: u64) -> MemoryKeeper {
    let mut keeper = MemoryKeeper::new(alloc);
    let _ = keeper.fail_at(call);
    keeper
}

/// Whether what was written on the way begins so and is the end of the whole.
fn is_rest(whole: &[u8], rest: &[u8], head: &str) -> bool {
    rest.starts_with(head.as_bytes()) && whole.ends_with(rest)
}

/// A text with a number in it.
fn numbered(alloc: Global, before: &str, number: u64, after: &str) -> String {
    let mut text = String::new(alloc);
    let _ = write!(text, "{before}{number}{after}");
    text
}

/// Whether a run that goes on with this iteration writes what is left of the whole run.
fn are_rest(alloc: Global, whole: &MemoryOutputs, rest: &MemoryOutputs, first: u64) -> bool {
    let events = numbered(alloc, "iteration,", first, "\n");
    let scores = numbered(alloc, "", first, ",p1,");
    let report = numbered(alloc, "iteration,", first, ",");
    is_rest(
        whole.written(OutFile::Events),
        rest.written(OutFile::Events),
        events.as_str(),
    ) && is_rest(
        whole.written(OutFile::Scores),
        rest.written(OutFile::Scores),
        scores.as_str(),
    ) && is_rest(
        whole.written(OutFile::Report),
        rest.written(OutFile::Report),
        report.as_str(),
    ) && whole.written(OutFile::Plans) == rest.written(OutFile::Plans)
}

/// Whether what was written on the way is a front of the whole, and what is left begins so, or nothing is left where this is no text.
fn is_front(whole: &[u8], front: &[u8], next: Option<&str>) -> bool {
    match (whole.strip_prefix(front), next) {
        (Some(rest), Some(next)) => rest.starts_with(next.as_bytes()),
        (Some(rest), None) => rest.is_empty(),
        (None, _) => false,
    }
}

/// Whether a run of six days whose save of this number failed has written the events and the scores of so many days, and of all of these
/// but the last the report, as the whole run has.
fn are_front(alloc: Global, whole: &MemoryOutputs, front: &MemoryOutputs, failed: u64) -> bool {
    let events = numbered(alloc, "iteration,", failed, "\n");
    let scores = numbered(alloc, "", failed, ",p1,");
    let report = numbered(alloc, "iteration,", failed.saturating_sub(1), ",");
    let is_last = failed == DAYS;
    is_front(
        whole.written(OutFile::Events),
        front.written(OutFile::Events),
        unless(is_last, events.as_str()),
    ) && is_front(
        whole.written(OutFile::Scores),
        front.written(OutFile::Scores),
        unless(is_last, scores.as_str()),
    ) && is_front(
        whole.written(OutFile::Report),
        front.written(OutFile::Report),
        Some(report.as_str()),
    ) && is_written(front, OutFile::Plans, "")
}

/// A text, or none.
fn unless(is_none: bool, text: &str) -> Option<&str> {
    if is_none { None } else { Some(text) }
}

/// Whether a run of six days whose save of this number fails stops there, and whether it then goes on behind the save before, to the end
/// of the whole run.
fn is_resumed<R: Threads + Wait + Sync>(
    rt: &R,
    alloc: Global,
    case: &Case,
    failing: u64,
    whole: &MemoryOutputs,
) -> bool {
    let mut keeper = failing_keeper(alloc, failing);
    let (stopped, front) = came_of(rt, alloc, &["qsim", "run"], case, &mut keeper);
    let (resumed, rest) = came_of(rt, alloc, &["qsim", "resume"], case, &mut keeper);
    let first = failing.saturating_sub(1);
    stopped == Status::KeepFault
        && are_front(alloc, whole, &front, failing)
        && resumed == Status::Done
        && are_rest(alloc, whole, &rest, first)
}

/// Whether a run of six days whose first save fails stops there, and has nothing to go on from.
fn has_nothing<R: Threads + Wait + Sync>(
    rt: &R,
    alloc: Global,
    case: &Case,
    whole: &MemoryOutputs,
) -> bool {
    let mut keeper = failing_keeper(alloc, 1);
    let (stopped, front) = came_of(rt, alloc, &["qsim", "run"], case, &mut keeper);
    stopped == Status::KeepFault
        && are_front(alloc, whole, &front, 1)
        && is_refused(rt, alloc, case, &mut keeper, Status::NothingKept, NOTHING)
}

/// What a run of a case writes that is not stopped.
fn whole_of<R: Threads + Wait + Sync>(rt: &R, alloc: Global, case: &Case) -> MemoryOutputs {
    let mut keeper = MemoryKeeper::new(alloc);
    let (_, whole) = came_of(rt, alloc, &["qsim", "run"], case, &mut keeper);
    whole
}

/// The first of the later saves behind which a run of short days does not go on as it should; one more than there are where there
/// is none.
fn first_unlike<R: Threads + Wait + Sync>(rt: &R, alloc: Global) -> u64 {
    let whole = whole_of(rt, alloc, &SHORT);
    for failing in 2..DAYS + 1 {
        if !is_resumed(rt, alloc, &SHORT, failing, &whole) {
            return failing;
        }
    }
    DAYS + 1
}

#[test]
fn runs_go_on_behind_each_save(rt: HostRuntime) {
    let whole = whole_of(&rt, rt.alloc(), &SHORT);
    assert_eq!(rt; first_unlike(&rt, rt.alloc()), DAYS + 1);
    assert!(rt; has_nothing(&rt, rt.alloc(), &SHORT, &whole));
}

/// What a drive writes before it is kept.
const EVENTS: &str = "iteration,0\n\
    100,actend,p1,,L1,home\n\
    100,departure,p1,,L1,car\n\
    100,PersonEntersVehicle,p1,p1,,\n\
    100,vehicle enters traffic,p1,p1,L1,\n\
    101,left link,,p1,L1,\n\
    101,entered link,,p1,L2,\n\
    111,vehicle leaves traffic,p1,p1,L2,\n\
    111,PersonLeavesVehicle,p1,p1,,\n\
    111,arrival,p1,,L2,car\n\
    111,actstart,p1,,L2,work\n";

/// Whether the first save fails behind the events and the scores, and before the report; nothing is kept then.
fn is_save_failed<R: Threads + Wait + Sync>(rt: &R, alloc: Global) -> bool {
    let mut keeper = failing_keeper(alloc, 1);
    let (status, outputs) = came_of(rt, alloc, &["qsim", "run"], &ONE_DRIVE, &mut keeper);
    status == Status::KeepFault
        && is_written(&outputs, OutFile::Events, EVENTS)
        && is_written(&outputs, OutFile::Scores, "0,p1,0,-18326\n")
        && is_written(&outputs, OutFile::Report, "")
        && is_written(&outputs, OutFile::Plans, "")
        && is_refused(
            rt,
            alloc,
            &ONE_DRIVE,
            &mut keeper,
            Status::NothingKept,
            NOTHING,
        )
}

#[test]
fn a_failing_save_stops_a_run(rt: HostRuntime) {
    assert!(rt; is_save_failed(&rt, rt.alloc()));
}

/// The report where nothing is kept.
const NOTHING: &str = "nothing kept\n";

/// Whether going on with a case from this keeper ends so, with this report and nothing else.
fn is_refused<R: Threads + Wait + Sync, K: Keeper>(
    rt: &R,
    alloc: Global,
    case: &Case,
    keeper: &mut K,
    status: Status,
    report: &str,
) -> bool {
    let (came, outputs) = came_of(rt, alloc, &["qsim", "resume"], case, keeper);
    came == status
        && is_written(&outputs, OutFile::Report, report)
        && is_written(&outputs, OutFile::Events, "")
        && is_written(&outputs, OutFile::Scores, "")
        && is_written(&outputs, OutFile::Plans, "")
}

/// Both calls by which a keeper tells what it holds may fail, and nothing is written.
#[test]
fn a_keeper_that_does_not_tell_stops_a_run(rt: HostRuntime) {
    let alloc = rt.alloc();
    let mut silent = failing_keeper(alloc, 1);
    assert!(rt; is_refused(&rt, alloc, &ONE_DRIVE, &mut silent, Status::KeepFault, ""));
    let mut keeper = failing_keeper(alloc, 3);
    let _ = came_of(&rt, alloc, &["qsim", "run"], &ONE_DRIVE, &mut keeper);
    assert!(rt; is_refused(&rt, alloc, &ONE_DRIVE, &mut keeper, Status::KeepFault, ""));
}

/// Commands that keep nothing.
static OTHERS: [&[&str]; 3] = [
    &["qsim", "check"],
    &["qsim", "route", "A", "B", "0"],
    &["qsim", "generate", "3", "7", "--last-iteration", "0"],
];

/// How many of these commands end well and leave the keeper's first call, which fails, to the test.
fn count_unkept<R: Threads + Wait + Sync>(rt: &R, alloc: Global) -> usize {
    for (place, words) in OTHERS.iter().enumerate() {
        let mut keeper = failing_keeper(alloc, 1);
        let (status, _) = came_of(rt, alloc, words, &ONE_DRIVE, &mut keeper);
        if status != Status::Done || keeper.last().is_ok() {
            return place;
        }
    }
    OTHERS.len()
}

#[test]
fn other_commands_leave_the_keeper(rt: HostRuntime) {
    assert_eq!(rt; count_unkept(&rt, rt.alloc()), 3);
}
