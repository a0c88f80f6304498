//! The town, divided: who is whose neighbour, with which lags, in which slots links stand, and which links end and begin in each partition,
//! worked by hand.

use crate::town_texts::TEXTS;
use divided_day::{Division, NumberList, divide, numbers_at};
use limits::MAX_PARTITIONS;
use rows::Plan;
use std::alloc::Global;
use std::thread::Threads;
use step_core::Border;
use town::{DayInput, Town};
use town_fixtures::fixture_of;

/// How many partitions there are; one of them, the place of a neighbour among its neighbours, the neighbour, and the lag from it.
type Row = (u32, usize, usize, u32, u32);

/// Of two partitions the first has a and b: the link to c and the walk lead over to the second, of which the link is the shorter one, and
/// back its holes take 25 seconds. Of four and of 64 each node has a partition of its own: a lag is the least of 32, of the links, of the
/// holes of links the other way, and of the walk.
static ROWS: [Row; 18] = [
    (2, 0, 0, 1, 25),
    (2, 1, 0, 0, 10),
    (4, 0, 0, 1, 1),
    (4, 1, 0, 0, 2),
    (4, 1, 1, 2, 25),
    (4, 1, 2, 3, 32),
    (4, 2, 0, 1, 10),
    (4, 2, 1, 3, 32),
    (4, 3, 0, 1, 20),
    (4, 3, 1, 2, 32),
    (64, 15, 0, 31, 1),
    (64, 31, 0, 15, 2),
    (64, 31, 1, 47, 25),
    (64, 31, 2, 63, 32),
    (64, 47, 0, 31, 10),
    (64, 47, 1, 63, 32),
    (64, 63, 0, 31, 20),
    (64, 63, 1, 47, 32),
];

/// Of how many partitions, and the slots of the links: of two the first has what ends at a and b, of four the one of each node.
static SLOTS: [(u32, [u32; 4]); 4] = [
    (1, [0, 1, 2, 3]),
    (2, [0, 0, 1, 1]),
    (4, [0, 0, 0, 0]),
    (64, [0, 0, 0, 0]),
];

/// Of how many partitions, one of them, and the links that end and that begin there.
type Share = (u32, u32, &'static [u32], &'static [u32]);

static SHARES: [Share; 11] = [
    (1, 0, &[0, 1, 2, 3], &[0, 1, 2, 3]),
    (2, 0, &[0, 3], &[0, 1, 3]),
    (2, 1, &[1, 2], &[2]),
    (4, 0, &[3], &[0]),
    (4, 1, &[0], &[1, 3]),
    (4, 2, &[1], &[2]),
    (4, 3, &[2], &[]),
    (64, 15, &[3], &[0]),
    (64, 31, &[0], &[1, 3]),
    (64, 47, &[1], &[2]),
    (64, 63, &[2], &[]),
];

/// How many borders all partitions have.
fn count_of(division: &Division) -> usize {
    let mut count: usize = 0;
    for list in &division.borders {
        count = count.saturating_add(list.rows.len());
    }
    count
}

/// Whether a partition has this neighbour at this place.
fn is_there(division: &Division, row: &Row) -> bool {
    let (_parts, partition, place, neighbour, lag) = *row;
    if partition >= division.borders.len() || place >= division.borders[partition].rows.len() {
        return false;
    }
    division.borders[partition].rows[place] == Border { neighbour, lag }
}

/// Whether the rows of so many partitions are all of their borders.
fn are_all(division: &Division, parts: u32) -> bool {
    let mut count: usize = 0;
    for row in &ROWS {
        if row.0 == parts {
            if !is_there(division, row) {
                return false;
            }
            count = count.saturating_add(1);
        }
    }
    count_of(division) == count
}

/// Whether links stand in the slots of so many partitions.
fn are_in_slots(division: &Division, parts: u32) -> bool {
    for row in &SLOTS {
        if row.0 == parts {
            return division.link_slots.as_slice() == row.1.as_slice();
        }
    }
    false
}

/// How many numbers all lists have.
fn count_in(lists: &[NumberList]) -> usize {
    let mut count: usize = 0;
    for list in lists {
        count = count.saturating_add(list.rows.len());
    }
    count
}

/// Whether each link ends and begins in its partition of so many, and in no other.
fn are_shared(division: &Division, parts: u32) -> bool {
    for share in &SHARES {
        let (of, partition, ends, starts) = *share;
        if of == parts
            && (numbers_at(&division.ends, partition) != ends
                || numbers_at(&division.starts, partition) != starts)
        {
            return false;
        }
    }
    count_in(&division.ends) == 4 && count_in(&division.starts) == 4
}

/// Whether a town is divided so among so many partitions.
fn is_divided(alloc: Global, day: &DayInput, parts: u32) -> bool {
    if parts == 0 || parts > MAX_PARTITIONS {
        return false;
    }
    match divide(alloc, day, parts) {
        Ok(division) => {
            division.owner.parts == parts
                && division.borders.len() == parts as usize
                && are_all(&division, parts)
                && are_in_slots(&division, parts)
                && are_shared(&division, parts)
        }
        Err(_) => false,
    }
}

/// The first of these numbers of partitions among which the town is divided otherwise; none where there is none.
fn first_other(alloc: Global, town: &Town, chosen: &[Plan]) -> Option<u32> {
    let day = DayInput {
        town,
        chosen,
        iteration: 0,
    };
    for row in &SLOTS {
        let parts = row.0;
        if !is_divided(alloc, &day, parts) {
            return Some(parts);
        }
    }
    None
}

/// The same of the town of the files; 0 where they have a fault.
fn first_other_of<R: Threads + Sync>(rt: &R, alloc: Global) -> Option<u32> {
    let Some(fixture) = fixture_of(rt, alloc, &TEXTS) else {
        return Some(0);
    };
    let other = first_other(alloc, &fixture.town, &fixture.chosen);
    drop(fixture);
    other
}

#[test]
fn towns_are_divided(rt: HostRuntime) {
    assert_eq!(rt; first_other_of(&rt, rt.alloc()), None);
}
