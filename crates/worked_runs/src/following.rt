//! A reader who follows events.csv while a run writes it.

use crate::cases::{APART, BUS, Case, Status, have_same, inputs_of, words_of};
use edge_files::{Failed, Gate, MemoryOutputs, NoKeeper, OutFile, Outputs};
use qsim_top::qsim;
use std::alloc::Global;
use std::sync::Wait;
use std::sync::atomic::{AtomicU64, Ordering};
use std::thread::Threads;

/// Two persons who leave home in second 100 and want a bus that starts in second 200, through four partitions, by number, in 260 seconds.
static DAY: Case = Case {
    settings: "{\"end_second\":260}",
    nodes: APART,
    ..BUS
};

/// How often a partition begins a second: four of them 260 times.
const BEGUN: u64 = 1_040;

/// How often one begins a second up to 100, before which nothing happens.
const QUIET: u64 = 404;

/// What events.csv has when the day begins.
const HEAD: &str = "iteration,0\n";

/// What it has of the seconds before 200.
const EARLY: &str = "iteration,0\n\
    100,actend,p1,,L1,home\n\
    100,departure,p1,,L1,pt\n\
    100,waitingForPt,p1,,L1,s1\n\
    100,actend,p2,,L1,home\n\
    100,departure,p2,,L1,pt\n\
    100,waitingForPt,p2,,L1,s1\n";

/// Outputs of which a reader may ask at any time how many bytes of events.csv they took.
struct Followed<'a, O> {
    outputs: O,
    taken: &'a AtomicU64,
}

impl<'a, O: Outputs> Outputs for Followed<'a, O> {
    ghost written = { λ s. O.written s.outputs };

    ghost faults = { λ s. O.faults s.outputs };

    fn write(&mut self, file: OutFile, piece: &[u8]) -> Result<usize, Failed> {
        match self.outputs.write(file, piece) {
            Ok(count) => {
                if file == OutFile::Events {
                    self.taken.fetch_add(count as u64, Ordering::SeqCst);
                }
                Ok(count)
            }
            Err(Failed) => Err(Failed),
        }
    }
}

/// Looks before each second of each partition how many bytes of events.csv were taken.
#[derive(Drop)]
struct Reader<'a> {
    taken: &'a AtomicU64,
    /// How often it looked.
    looks: AtomicU64,
    /// How often the line of the iteration was all that there was.
    bare: AtomicU64,
    /// How often, before second 200, there was all of the seconds before, and no more.
    early: AtomicU64,
}

impl<'a> Reader<'a> {
    fn new(taken: &'a AtomicU64) -> Reader<'a> {
        Reader {
            taken,
            looks: AtomicU64::new(0),
            bare: AtomicU64::new(0),
            early: AtomicU64::new(0),
        }
    }

    /// Whether it looked before each second, and saw so often the line of the iteration alone, and so often all of the seconds before 200.
    fn has_seen(&self, bare: u64, early: u64) -> bool {
        self.looks.load(Ordering::SeqCst) == BEGUN
            && self.bare.load(Ordering::SeqCst) == bare
            && self.early.load(Ordering::SeqCst) == early
    }
}

impl Gate for Reader<'_> {
    fn pass(&self, _partition: u32, second: u32) {
        let taken = self.taken.load(Ordering::SeqCst);
        self.looks.fetch_add(1, Ordering::SeqCst);
        if taken == HEAD.len() as u64 {
            self.bare.fetch_add(1, Ordering::SeqCst);
        }
        if second == 200 && taken == EARLY.len() as u64 {
            self.early.fetch_add(1, Ordering::SeqCst);
        }
    }
}

/// How many looks a hold has.
const MOST_LOOKS: u64 = 100_000_000;

/// Holds partition 0 before second 200 until events.csv took all of the seconds before.
#[derive(Drop)]
struct Holder<'a> {
    taken: &'a AtomicU64,
    /// How many holds found that.
    met: AtomicU64,
}

impl<'a> Holder<'a> {
    fn new(taken: &'a AtomicU64) -> Holder<'a> {
        Holder {
            taken,
            met: AtomicU64::new(0),
        }
    }
}

impl Gate for Holder<'_> {
    fn pass(&self, partition: u32, second: u32) {
        if partition != 0 || second != 200 {
            return;
        }
        for _look in 0..MOST_LOOKS {
            if self.taken.load(Ordering::SeqCst) >= EARLY.len() as u64 {
                self.met.fetch_add(1, Ordering::SeqCst);
                return;
            }
        }
    }
}

/// How a run of the day with these words ends through a gate, and what it writes.
fn came_before<R: Threads + Wait + Sync, G: Gate>(
    rt: &R,
    alloc: Global,
    words: &[&str],
    taken: &AtomicU64,
    gate: &G,
) -> (Status, MemoryOutputs) {
    let words = words_of(alloc, words);
    let mut inputs = inputs_of(alloc, &DAY);
    let mut keeper = NoKeeper::new();
    let mut followed = Followed {
        outputs: MemoryOutputs::new(alloc),
        taken,
    };
    let status = qsim(
        rt,
        alloc,
        &words,
        &mut inputs,
        &mut followed,
        &mut keeper,
        gate,
    );
    let Followed {
        outputs,
        taken: _taken,
    } = followed;
    (status, outputs)
}

/// Whether the events of second 200 stand behind those of the seconds before.
fn goes_on(outputs: &MemoryOutputs) -> bool {
    match outputs
        .written(OutFile::Events)
        .strip_prefix(EARLY.as_bytes())
    {
        Some(later) => later.starts_with(b"200,"),
        None => false,
    }
}

/// What a run of the day with these words writes, where it is done, and a reader saw so often the line of the iteration alone, and so often
/// all of the seconds before 200.
fn seen_in<R: Threads + Wait + Sync>(
    rt: &R,
    alloc: Global,
    words: &[&str],
    bare: u64,
    early: u64,
) -> Option<MemoryOutputs> {
    let taken = AtomicU64::new(0);
    let reader = Reader::new(&taken);
    let (status, outputs) = came_before(rt, alloc, words, &taken, &reader);
    if status == Status::Done && reader.has_seen(bare, early) && goes_on(&outputs) {
        Some(outputs)
    } else {
        None
    }
}

/// With `--stream` and one worker the events of second 100 are in events.csv before any partition begins the next one, and before second
/// 200 all that happened before and no more; else the line of the iteration is all that it has before the day is over. Both write the same
/// bytes.
#[test]
fn events_come_while_the_day_runs(rt: HostRuntime) {
    let streamed = seen_in(
        &rt,
        rt.alloc(),
        &["qsim", "run", "--stream", "--partitions", "4"],
        QUIET,
        4,
    );
    let listed = seen_in(
        &rt,
        rt.alloc(),
        &["qsim", "run", "--partitions", "4"],
        BEGUN,
        0,
    );
    assert!(rt; have_same(&streamed, &listed));
}

/// What a run of the day with these words writes, where it is done, and partition 0 came to second 200 with all written that was before.
fn held_in<R: Threads + Wait + Sync>(
    rt: &R,
    alloc: Global,
    words: &[&str],
) -> Option<MemoryOutputs> {
    let taken = AtomicU64::new(0);
    let holder = Holder::new(&taken);
    let (status, outputs) = came_before(rt, alloc, words, &taken, &holder);
    if status == Status::Done && holder.met.load(Ordering::SeqCst) == 1 && goes_on(&outputs) {
        Some(outputs)
    } else {
        None
    }
}

/// Two workers on threads of their own: what was before second 200 is written before partition 0 does it, and the bytes are those of one.
#[test]
fn events_come_while_threads_compute(rt: HostRuntime) {
    let by_two = [
        "qsim",
        "run",
        "--stream",
        "--partitions",
        "2",
        "--workers",
        "2",
    ];
    let threaded = held_in(&rt, rt.alloc(), &by_two);
    let alone = held_in(&rt, rt.alloc(), &["qsim", "run", "--stream"]);
    assert!(rt; have_same(&threaded, &alone));
}
