//! Gates that hold partitions, and watch them.

use edge_files::Gate;
use std::sync::atomic::{AtomicU64, Ordering};

/// The turns after which a hold gives up.
const MOST_TURNS: u32 = 100_000_000;

/// Waits until a number is at least so large, and answers whether it is.
fn await_number(number: &AtomicU64, least: u64) -> bool {
    for _turn in 0..MOST_TURNS {
        if number.load(Ordering::SeqCst) >= least {
            return true;
        }
    }
    false
}

/// Holds each partition before second 0 until four have come there.
#[derive(Drop)]
pub struct Meeting {
    come: AtomicU64,
    /// How many saw that.
    met: AtomicU64,
}

impl Meeting {
    /// Before anybody has come.
    pub fn new() -> Meeting {
        Meeting {
            come: AtomicU64::new(0),
            met: AtomicU64::new(0),
        }
    }

    /// How many saw that four have come.
    pub fn met(&self) -> u64 {
        self.met.load(Ordering::SeqCst)
    }
}

impl Gate for Meeting {
    fn pass(&self, _partition: u32, second: u32) {
        if second == 0 {
            self.come.fetch_add(1, Ordering::SeqCst);
            if await_number(&self.come, 4) {
                self.met.fetch_add(1, Ordering::SeqCst);
            }
        }
    }
}

/// Holds partition 0 before second 5 until partition 3 has passed second 7, and counts the passes of four partitions, of each by itself.
#[derive(Drop)]
pub struct Ahead {
    passes: [AtomicU64; 4],
    /// How many holds gave up, and how many passes of a partition were not those of its next second.
    failed: AtomicU64,
}

impl Ahead {
    /// Before the first pass.
    pub fn new() -> Ahead {
        Ahead {
            passes: [
                AtomicU64::new(0),
                AtomicU64::new(0),
                AtomicU64::new(0),
                AtomicU64::new(0),
            ],
            failed: AtomicU64::new(0),
        }
    }

    /// How many passes each had.
    pub fn passes(&self) -> [u64; 4] {
        [
            self.passes[0].load(Ordering::SeqCst),
            self.passes[1].load(Ordering::SeqCst),
            self.passes[2].load(Ordering::SeqCst),
            self.passes[3].load(Ordering::SeqCst),
        ]
    }

    /// How many holds gave up, and how many passes were not those of the next second.
    pub fn failed(&self) -> u64 {
        self.failed.load(Ordering::SeqCst)
    }
}

impl Gate for Ahead {
    fn pass(&self, partition: u32, second: u32) {
        let passes = &self.passes[partition as usize % 4];
        if partition > 3 || passes.fetch_add(1, Ordering::SeqCst) != u64::from(second) {
            self.failed.fetch_add(1, Ordering::SeqCst);
        }
        if partition == 0 && second == 5 && !await_number(&self.passes[3], 8) {
            self.failed.fetch_add(1, Ordering::SeqCst);
        }
    }
}

/// Counts the passes of four partitions, and those of them that are not in the order of one thread: in each second each of them, by number
/// in even seconds and backwards in odd ones.
#[derive(Drop)]
pub struct InTurn {
    all: AtomicU64,
    wrong: AtomicU64,
}

impl InTurn {
    /// Before the first pass.
    pub fn new() -> InTurn {
        InTurn {
            all: AtomicU64::new(0),
            wrong: AtomicU64::new(0),
        }
    }

    /// How many passes there were.
    pub fn passes(&self) -> u64 {
        self.all.load(Ordering::SeqCst)
    }

    /// How many of them were not in order.
    pub fn wrong(&self) -> u64 {
        self.wrong.load(Ordering::SeqCst)
    }
}

impl Gate for InTurn {
    fn pass(&self, partition: u32, second: u32) {
        let number = u64::from(partition);
        let turn = if second % 2 == 0 {
            number
        } else {
            3u64.saturating_sub(number)
        };
        if self.all.fetch_add(1, Ordering::SeqCst) != 4 * u64::from(second) + turn {
            self.wrong.fetch_add(1, Ordering::SeqCst);
        }
    }
}
