//! Scores by the tables of the worked examples.

use crate::scored_days::{
    AT_HOME, AT_HOME_BEHIND_MIDNIGHT, AT_WORK_BEHIND_MIDNIGHT, COMMUTE, DRIVE, HOME, HOME_POINTS,
    LEFT_BEHIND, OUT_OF_TURN, STUCK_AND_ON, Told, UNTOLD, WALK, WORK, WORK_POINTS,
};
use events::{Event, Key, More, Word};
use scoring::{ModeScore, Points, Table, TableList, Tables, score_of};
use std::alloc::Global;

fn event(told: Told) -> Event {
    Event {
        key: Key {
            second: told.0,
            phase: 0,
            number: 0,
            index: 0,
        },
        word: told.1,
        person: Some(0),
        vehicle: None,
        link: None,
        more: told.2,
    }
}

fn events(alloc: Global, told: &[Told]) -> Vec<Event> {
    let mut events = Vec::new(alloc);
    for one in told {
        let _ = events.push(event(*one));
    }
    events
}

fn add_table(
    alloc: Global,
    rows: &mut Vec<Table>,
    kind: u32,
    points: &[(u32, i64)],
    latest: Option<u32>,
) {
    if let Ok(points) = Vec::from_slice(alloc, points) {
        let _ = rows.push(Table {
            kind,
            points: Points { rows: points },
            latest,
        });
    }
}

/// The usual costs, and these tables.
fn by(tables: Vec<Table>) -> Option<Tables> {
    let usual = ModeScore {
        constant: 0,
        per_second: -1_666,
    };
    Tables::new(TableList { rows: tables }, [usual; 5], -5_000, -100_000_000)
}

/// Both tables, where work begins late after `latest`.
fn both(alloc: Global, latest: Option<u32>) -> Option<Tables> {
    let mut rows = Vec::new(alloc);
    add_table(alloc, &mut rows, HOME, &HOME_POINTS, None);
    add_table(alloc, &mut rows, WORK, &WORK_POINTS, latest);
    by(rows)
}

/// The score of a day that begins at home.
fn score(alloc: Global, tables: Option<Tables>, told: &[Told]) -> Option<i64> {
    match tables {
        Some(tables) => score_of(&tables, HOME, &events(alloc, told)),
        None => None,
    }
}

#[test]
fn worked_days(rt: HostRuntime) {
    let alloc = rt.alloc();
    assert_eq!(rt; score(alloc, by(Vec::new(alloc)), &WALK), Some(-83_300));
    assert_eq!(rt; score(alloc, by(Vec::new(alloc)), &DRIVE), Some(-18_326));
    assert_eq!(rt;
        score(alloc, by(Vec::new(alloc)), &LEFT_BEHIND),
        Some(-279_761_400)
    );
    assert_eq!(rt; score(alloc, both(alloc, None), &AT_HOME), Some(80_000_000));
    assert_eq!(rt;
        score(alloc, both(alloc, None), &COMMUTE),
        Some(126_594_366)
    );
    assert_eq!(rt;
        score(alloc, both(alloc, Some(28_800)), &COMMUTE),
        Some(126_539_366)
    );
    assert_eq!(rt;
        score(alloc, both(alloc, None), &COMMUTE[..6]),
        Some(93_284_451)
    );
    assert_eq!(rt;
        score(alloc, both(alloc, None), &AT_WORK_BEHIND_MIDNIGHT),
        Some(-189_754_815)
    );
    assert_eq!(rt;
        score(alloc, both(alloc, None), &AT_HOME_BEHIND_MIDNIGHT),
        Some(-169_940_000)
    );
}

#[test]
fn days_that_have_no_score(rt: HostRuntime) {
    let alloc = rt.alloc();
    for told in [
        OUT_OF_TURN.as_slice(),
        UNTOLD.as_slice(),
        STUCK_AND_ON.as_slice(),
    ] {
        assert_eq!(rt; score(alloc, both(alloc, None), told), None);
    }
}
