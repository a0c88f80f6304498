//! Kept rows that no run has saved: those that fit the files are gone on from, and of others the first row with which it shows is named.

use crate::cases::{Case, LINE, Status, is_written};
use crate::saves::came_of;
use edge_files::{Bytes, Keeper, KeptRow, OutFile};
use keep::MemoryKeeper;
use std::alloc::Global;
use std::sync::Wait;
use std::thread::Threads;

/// A person who drives to work, and one who stays at home.
static TWO_PERSONS: Case = Case {
    settings: "{\"end_second\":120}",
    plans: "p1,0,act,home,L1,100,\np1,0,leg,car,,,L1 L2\np1,0,act,work,L2,,\np2,0,act,home,L1,,\n",
    ..LINE
};

/// A kept row: whose plan it is, its number, whether it is the chosen one, its score, and its lines.
struct Kept {
    person: &'static str,
    plan: u32,
    chosen: bool,
    score: Option<i64>,
    lines: &'static str,
}

/// A plan of the first person, which he has tried.
const DRIVES: Kept = Kept {
    person: "p1",
    plan: 0,
    chosen: false,
    score: Some(-18326),
    lines: "p1,0,act,home,L1,100,\np1,0,leg,car,,,L1 L2\np1,0,act,work,L2,,\n",
};

/// The plan that he has chosen.
const STAYS: Kept = Kept {
    person: "p1",
    plan: 1,
    chosen: true,
    score: None,
    lines: "p1,1,act,home,L1,,\n",
};

/// The plan of the second person.
const OTHER: Kept = Kept {
    person: "p2",
    plan: 0,
    chosen: true,
    score: Some(5),
    lines: "p2,0,act,home,L1,,\n",
};

/// The first person's plan at home as a first plan that is not chosen, and as the ones after it.
const FIRST: Kept = Kept {
    plan: 0,
    chosen: false,
    lines: "p1,0,act,home,L1,,\n",
    ..STAYS
};

const SECOND: Kept = Kept {
    chosen: false,
    ..STAYS
};

const THIRD: Kept = Kept {
    plan: 2,
    lines: "p1,2,act,home,L1,,\n",
    ..SECOND
};

const FOURTH: Kept = Kept {
    plan: 3,
    lines: "p1,3,act,home,L1,,\n",
    ..SECOND
};

const FIFTH: Kept = Kept {
    plan: 4,
    lines: "p1,4,act,home,L1,,\n",
    ..SECOND
};

const SIXTH: Kept = Kept {
    plan: 5,
    lines: "p1,5,act,home,L1,,\n",
    ..SECOND
};

/// Rows that do not fit: of too few persons or plans or of too many, not numbered in order, with none chosen or two, of another person, or of
/// a plan that does not fit the town.
static FOREIGN: [(&[Kept], &str); 14] = [
    (&[], "foreign,0\n"),
    (&[DRIVES], "foreign,1\n"),
    (&[DRIVES, STAYS], "foreign,2\n"),
    (&[DRIVES, STAYS, OTHER, OTHER], "foreign,3\n"),
    (&[DRIVES, STAYS, STAYS], "foreign,2\n"),
    (&[FIRST, THIRD], "foreign,1\n"),
    (&[DRIVES, OTHER], "foreign,1\n"),
    (
        &[
            Kept {
                chosen: true,
                ..FIRST
            },
            STAYS,
        ],
        "foreign,1\n",
    ),
    (
        &[FIRST, SECOND, THIRD, FOURTH, FIFTH, SIXTH, OTHER],
        "foreign,5\n",
    ),
    (&[OTHER], "foreign,0\n"),
    (
        &[Kept {
            person: "p3",
            lines: "p3,0,act,home,L1,,\n",
            ..OTHER
        }],
        "foreign,0\n",
    ),
    (
        &[Kept {
            lines: "p2,0,act,home,L1,,\n",
            ..FIRST
        }],
        "foreign,0\n",
    ),
    (
        &[Kept {
            lines: "p1,0,act,home,L2,100,\np1,0,leg,car,,,L2 L1\np1,0,act,work,L1,,\n",
            ..FIRST
        }],
        "foreign,0\n",
    ),
    (
        &[Kept {
            lines: "p1,0,act,home,L1,100,\np1,0,leg,car,,,L1 L3\np1,0,act,work,L3,,\n",
            ..FIRST
        }],
        "foreign,0\n",
    ),
];

/// Rows that fit, two plans of the first person and six, and the plans that are written of them: the chosen one first, as plan 0, and no more
/// than five.
static OWN: [(&[Kept], &str); 2] = [
    (
        &[DRIVES, STAYS, OTHER],
        "person,plan,kind,name,link,time,route\np1,0,act,home,L1,,\n\
        p1,1,act,home,L1,100,\np1,1,leg,car,,,L1 L2\np1,1,act,work,L2,,\np2,0,act,home,L1,,\n",
    ),
    (
        &[
            FIRST,
            SECOND,
            THIRD,
            FOURTH,
            FIFTH,
            Kept {
                chosen: true,
                ..SIXTH
            },
            OTHER,
        ],
        "person,plan,kind,name,link,time,route\np1,0,act,home,L1,,\np1,1,act,home,L1,,\np1,2,act,home,L1,,\n\
        p1,3,act,home,L1,,\np1,4,act,home,L1,,\np2,0,act,home,L1,,\n",
    ),
];

fn bytes_of(alloc: Global, text: &str) -> Bytes {
    match Vec::from_slice(alloc, text.as_bytes()) {
        Ok(rows) => Bytes { rows },
        Err(_) => Bytes::new(alloc),
    }
}

/// A keeper that holds these rows, kept after day 0.
fn keeper_of(alloc: Global, table: &[Kept]) -> MemoryKeeper {
    let mut rows = Vec::new(alloc);
    for kept in table {
        let _ = rows.push(KeptRow {
            person: bytes_of(alloc, kept.person),
            plan: kept.plan,
            chosen: kept.chosen,
            score: kept.score,
            body: bytes_of(alloc, kept.lines),
        });
    }
    let mut keeper = MemoryKeeper::new(alloc);
    let _ = keeper.save(0, &rows);
    keeper
}

/// Whether a run that goes on from these rows ends so, with this report and these plans and nothing else.
fn ends_so<R: Threads + Wait + Sync>(
    rt: &R,
    alloc: Global,
    table: &[Kept],
    status: Status,
    report: &str,
    plans: &str,
) -> bool {
    let mut keeper = keeper_of(alloc, table);
    let (came, outputs) = came_of(rt, alloc, &["qsim", "resume"], &TWO_PERSONS, &mut keeper);
    came == status
        && is_written(&outputs, OutFile::Report, report)
        && is_written(&outputs, OutFile::Plans, plans)
        && is_written(&outputs, OutFile::Events, "")
        && is_written(&outputs, OutFile::Scores, "")
}

/// The place of the first of these rows that are not foreign with this report; their number where all are.
fn first_own<R: Threads + Wait + Sync>(rt: &R, alloc: Global) -> usize {
    for (place, (table, report)) in FOREIGN.iter().enumerate() {
        if !ends_so(rt, alloc, table, Status::Foreign, report, "") {
            return place;
        }
    }
    FOREIGN.len()
}

/// The place of the first of these rows from which a run does not go on; their number where there is none.
fn first_foreign<R: Threads + Wait + Sync>(rt: &R, alloc: Global) -> usize {
    for (place, (table, plans)) in OWN.iter().enumerate() {
        if !ends_so(rt, alloc, table, Status::Done, "done,0\n", plans) {
            return place;
        }
    }
    OWN.len()
}

#[test]
fn foreign_rows_are_named(rt: HostRuntime) {
    assert_eq!(rt; first_own(&rt, rt.alloc()), 14);
}

#[test]
fn own_rows_are_gone_on_from(rt: HostRuntime) {
    assert_eq!(rt; first_foreign(&rt, rt.alloc()), 2);
}
