//! What the words of the command line give to commands, and what these have where nothing is said.

use command_line::{Asked, Command, read_words};
use std::alloc::Global;

/// What these words ask for; nothing where memory is wanting.
fn asked(alloc: Global, texts: &[&str]) -> Option<Asked> {
    let mut words = Vec::new(alloc);
    for text in texts {
        let Ok(word) = String::from_str(alloc, text) else {
            return None;
        };
        let Ok(()) = words.push(word) else {
            return None;
        };
    }
    read_words(alloc, &words).ok()
}

/// Words of a grid: its size, its seed and the number of its last iteration, 1 where that is not given.
static GRIDS: [(&[&str], (u32, u64, u32)); 3] = [
    (&["qsim", "generate", "4", "7"], (4, 7, 1)),
    (
        &["qsim", "generate", "3", "0", "--last-iteration", "0"],
        (3, 0, 0),
    ),
    (
        &[
            "qsim",
            "generate",
            "--last-iteration=1000",
            "100",
            "18446744073709551615",
        ],
        (100, u64::MAX, 1000),
    ),
];

/// The grid that words ask for.
fn grid_of(alloc: Global, texts: &[&str]) -> Option<(u32, u64, u32)> {
    match asked(alloc, texts) {
        Some(
            Asked::Work {
                command: Command::Generate {
                    size,
                    seed,
                    last_iteration,
                },
                ..
            },
        ) => Some((size, seed, last_iteration)),
        _ => None,
    }
}

/// How many of the grids are asked for, up to the first that is not.
fn count_grids(alloc: Global) -> usize {
    for (place, &(texts, wanted)) in GRIDS.iter().enumerate() {
        if grid_of(alloc, texts) != Some(wanted) {
            return place;
        }
    }
    GRIDS.len()
}

#[test]
fn grids_are_asked_for(rt: HostRuntime) {
    assert_eq!(rt; count_grids(rt.alloc()), 3);
}

/// Words, and how days are then computed: in how many partitions, by how many workers, and whether events are written meanwhile.
static EXECUTIONS: [(&[&str], (u32, u32, bool)); 14] = [
    (&["qsim", "run"], (1, 1, false)),
    (&["qsim", "run", "--partitions", "1"], (1, 1, false)),
    (
        &["qsim", "resume", "--partitions=64", "--workers=1"],
        (64, 1, false),
    ),
    (&["qsim", "resume", "--workers", "64"], (1, 64, false)),
    (&["qsim", "check"], (1, 1, false)),
    (&["qsim", "route", "a", "b", "0"], (1, 1, false)),
    (
        &[
            "qsim",
            "generate",
            "--workers",
            "4",
            "4",
            "7",
            "--partitions",
            "16",
        ],
        (16, 4, false),
    ),
    (&["qsim", "generate", "4", "7"], (1, 1, false)),
    (&["qsim", "run", "--stream"], (1, 1, true)),
    (&["qsim", "resume", "--stream", "--workers=4"], (1, 4, true)),
    (&["qsim", "resume", "--workers=4"], (1, 4, false)),
    (&["qsim", "generate", "--stream", "4", "7"], (1, 1, true)),
    (
        &["qsim", "generate", "4", "7", "--partitions=2", "--stream"],
        (2, 1, true),
    ),
    (&["qsim", "resume"], (1, 1, false)),
];

/// How the days of a command are computed.
fn execution_of(alloc: Global, texts: &[&str]) -> Option<(u32, u32, bool)> {
    match asked(alloc, texts) {
        Some(
            Asked::Work {
                spread,
                streams,
                ..
            },
        ) => Some((spread.partitions, spread.workers, streams)),
        _ => None,
    }
}

/// How many of the commands compute their days so, up to the first that does not.
fn count_executions(alloc: Global) -> usize {
    for (place, &(texts, wanted)) in EXECUTIONS.iter().enumerate() {
        if execution_of(alloc, texts) != Some(wanted) {
            return place;
        }
    }
    EXECUTIONS.len()
}

#[test]
fn days_are_computed_as_asked_for(rt: HostRuntime) {
    assert_eq!(rt; count_executions(rt.alloc()), 14);
}
