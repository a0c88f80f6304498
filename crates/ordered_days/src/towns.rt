//! Towns whose nodes have a partition each, in ten orders of steps: the same events as the undivided day, in a number that is counted by
//! hand.

ghost use Rattle.std.specs.Prelude.{◌≡◌, ◌≤◌, false};
ghost use Rattle.limits.specs.declared.TheConstants.{MAX_PARTITIONS};
ghost use Rattle.law_in_range.specs.Setups.{HaveFittingPlans};

use crate::files::{Files, LINE, WALK, town_of};
use crate::orders::in_order;
use divided_day::divide;
use events::Event;
use parted_day::{Run, TownPart, run_of, share};
use plain_day::plain_day;
use rows::Plan;
use std::alloc::Global;
use std::thread::Threads;
use step_cases::ORDERS;
use town::{DayInput, Town};
use town_fixtures::have_fitting_plans;

/// A town: its files, how many nodes it has, from the left to the right, and of its day how many events it tells, and in which second the
/// last one.
struct Case {
    files: Files,
    nodes: u32,
    events: usize,
    last: u32,
}

/// Links in a line with room for one vehicle each. Two drive all along it, two from the second link on, and two from the third: they tell
/// 14, 12 and 10 events each. Nobody waits for so long that he is removed.
const JAM: Files = Files {
    settings: "{\"end_second\":130}",
    nodes: "node,x,y\na,0,0\nb,100,0\nc,200,0\nd,300,0\ne,400,0\n",
    links: "link,from,to,length,speed,capacity,lanes\n\
        K1,a,b,50,1000,3600,1\nK2,b,c,50,1000,3600,1\nK3,c,d,50,1000,3600,1\nK4,d,e,50,1000,3600,1\n",
    plans: "person,plan,kind,name,link,time,route\n\
        p1,0,act,home,K1,100,\np1,0,leg,car,,,K1 K2 K3 K4\np1,0,act,work,K4,,\n\
        p2,0,act,home,K1,100,\np2,0,leg,car,,,K1 K2 K3 K4\np2,0,act,work,K4,,\n\
        p3,0,act,home,K2,100,\np3,0,leg,car,,,K2 K3 K4\np3,0,act,work,K4,,\n\
        p4,0,act,home,K2,100,\np4,0,leg,car,,,K2 K3 K4\np4,0,act,work,K4,,\n\
        p5,0,act,home,K3,100,\np5,0,leg,car,,,K3 K4\np5,0,act,work,K4,,\n\
        p6,0,act,home,K3,100,\np6,0,leg,car,,,K3 K4\np6,0,act,work,K4,,\n",
    ..LINE
};

/// Two links into the third node, and one out of it with room for one vehicle. Two come to it over the two others at once, of which a
/// random number lets one go first: it is the first link's turn.
const MERGE: Files = Files {
    settings: "{\"end_second\":120}",
    links: "link,from,to,length,speed,capacity,lanes\n\
        L1,A,C,10000,1000,1000,1\nL2,B,C,10000,1000,2000,1\nL3,C,D,50,1000,3600,1\n",
    plans: "person,plan,kind,name,link,time,route\n\
        p1,0,act,home,L1,100,\np1,0,leg,car,,,L1 L3\np1,0,act,work,L3,,\n\
        p2,0,act,home,L2,100,\np2,0,leg,car,,,L2 L3\np2,0,act,work,L3,,\n",
    ..LINE
};

/// Two who want a bus of one seat, which crosses two borders with the one who got it.
const BUS: Files = Files {
    settings: "{\"end_second\":260,\"dwell_open\":4,\"dwell_alight\":1,\"dwell_board\":2}",
    plans: "person,plan,kind,name,link,time,route\n\
        p1,0,act,home,L1,100,\np1,0,leg,pt,,,b s1 s3\np1,0,act,work,L3,,\n\
        p2,0,act,home,L1,100,\np2,0,leg,pt,,,b s1 s3\np2,0,act,work,L3,,\n",
    stops: "stop,link\ns1,L1\ns3,L3\n",
    routes: "line,route,links,stops\nb,r1,L1 L2 L3,s1:20:wait s3:60\n",
    departures: "departure,route,second,seats\nd1,r1,200,1\n",
    ..LINE
};

/// At the end of the day one drives and one rides in a bus, both over a border that they crossed in the last seconds, one walks since long
/// to another partition and one since five seconds to a third, and one is at the only activity.
const UNDER_WAY: Files = Files {
    settings: "{\"end_second\":120}",
    plans: "person,plan,kind,name,link,time,route\n\
        p1,0,act,home,L1,115,\np1,0,leg,car,,,L1 L2\np1,0,act,work,L2,,\n\
        p2,0,act,home,L1,100,\np2,0,leg,walk,,60,\np2,0,act,work,L2,,\n\
        p3,0,act,home,L1,,\n\
        p4,0,act,home,L1,100,\np4,0,leg,pt,,,b s1 s2\np4,0,act,work,L2,,\n\
        p5,0,act,home,L1,115,\np5,0,leg,walk,,30,\np5,0,act,work,L3,,\n",
    stops: "stop,link\ns1,L1\ns2,L2\n",
    routes: "line,route,links,stops\nb,r1,L1 L2,s1:0 s2:10\n",
    departures: "departure,route,second,seats\nd1,r1,110,1\n",
    ..LINE
};

static JAMS: [Case; 4] = [
    Case {
        files: JAM,
        nodes: 5,
        events: 72,
        last: 112,
    },
    // A hole takes two seconds along a link.
    Case {
        files: Files {
            settings: "{\"end_second\":130,\"hole_speed\":25}",
            ..JAM
        },
        nodes: 5,
        events: 72,
        last: 117,
    },
    // A hole takes five seconds: the second ones of the first two links wait for ten seconds and are removed, with six events each.
    Case {
        files: Files {
            settings: "{\"end_second\":130,\"hole_speed\":10}",
            ..JAM
        },
        nodes: 5,
        events: 58,
        last: 120,
    },
    // Who has waited for two seconds is pushed in.
    Case {
        files: Files {
            settings: "{\"end_second\":130,\"stuck_seconds\":2,\"stuck_push\":1,\"hole_speed\":10}",
            ..JAM
        },
        nodes: 5,
        events: 72,
        last: 112,
    },
];

static OTHERS: [Case; 6] = [
    Case {
        files: WALK,
        nodes: 4,
        events: 5,
        last: 101,
    },
    // A hole takes twenty seconds along a link.
    Case {
        files: Files {
            settings: "{\"end_second\":110,\"hole_speed\":500}",
            ..WALK
        },
        nodes: 4,
        events: 5,
        last: 101,
    },
    Case {
        files: MERGE,
        nodes: 4,
        events: 20,
        last: 104,
    },
    // Another random number, by which it is the second link's turn.
    Case {
        files: Files {
            settings: "{\"end_second\":120,\"seed\":1}",
            ..MERGE
        },
        nodes: 4,
        events: 20,
        last: 104,
    },
    Case {
        files: BUS,
        nodes: 4,
        events: 22,
        last: 260,
    },
    Case {
        files: UNDER_WAY,
        nodes: 4,
        events: 24,
        last: 120,
    },
];

/// Each node has a partition of its own.
static OWN: [u32; 5] = [0, 1, 2, 3, 4];

/// Whether each order of steps tells these events.
fn all_tell<'a>(alloc: Global, run: &Run<'a>, events: &[Event]) -> bool
    requires { run.now.streams ≡ false }
{
    for order in &ORDERS {
        match in_order::<TownPart<'a>>(alloc, run, order) {
            Some(told) => {
                if told.as_slice() != events {
                    return false;
                }
            }
            None => return false,
        }
    }
    true
}

/// The same in so many partitions.
fn is_told_in(alloc: Global, day: &DayInput, parts: u32, events: &[Event]) -> bool
    requires given { HaveFittingPlans day.now }
    requires some { 1 ≤ parts }
    requires few { parts ≤ MAX_PARTITIONS }
{
    match share(alloc, day, parts) {
        Ok(shared) => all_tell(alloc, &run_of(alloc, &*day, &shared, false), events),
        Err(_) => false,
    }
}

/// Whether each of so many nodes has a partition of its own, from the left to the right, where there are as many.
fn have_their_own(alloc: Global, day: &DayInput, nodes: u32) -> bool
    requires some { 1 ≤ nodes }
    requires few { nodes ≤ 5 }
{
    match divide(alloc, day, nodes) {
        Ok(division) => division.owner.of_node.rows.as_slice() == &OWN[..nodes as usize],
        Err(_) => false,
    }
}

/// Whether these are as many events as a case tells, and the last one is in its second.
fn are_of(events: &[Event], case: &Case) -> bool {
    match events.last() {
        Some(event) => events.len() == case.events && event.key.second == case.last,
        None => false,
    }
}

/// Whether the undivided day tells what a case tells, and each order the same events: in one partition, in two, and where each node has one
/// of its own.
fn are_alike(alloc: Global, day: &DayInput, case: &Case) -> bool
    requires { HaveFittingPlans day.now }
{
    let nodes = case.nodes;
    if nodes == 0 || nodes > 5 {
        return false;
    }
    match plain_day(alloc, day) {
        Ok(plain) => {
            are_of(&plain, case)
                && have_their_own(alloc, day, nodes)
                && is_told_in(alloc, day, 1, &plain)
                && is_told_in(alloc, day, 2, &plain)
                && is_told_in(alloc, day, nodes, &plain)
        }
        Err(_) => false,
    }
}

/// The same of the day of a town.
fn are_alike_in(alloc: Global, town: &Town, chosen: &[Plan], case: &Case) -> bool {
    let day = DayInput {
        town,
        chosen,
        iteration: 0,
    };
    have_fitting_plans(&day) && are_alike(alloc, &day, case)
}

/// The same of the town of its files.
fn is_told_alike<R: Threads + Sync>(rt: &R, alloc: Global, case: &Case) -> bool {
    let Some(fixture) = town_of(rt, alloc, &case.files) else {
        return false;
    };
    let alike = are_alike_in(alloc, &fixture.town, &fixture.chosen, case);
    drop(fixture);
    alike
}

/// The place of the first case that is not told alike; none where all are.
fn told_apart<R: Threads + Sync>(rt: &R, alloc: Global, cases: &[Case]) -> Option<usize> {
    for place in 0..cases.len() {
        if !is_told_alike(rt, alloc, &cases[place]) {
            return Some(place);
        }
    }
    None
}

#[test]
fn jams_in_ten_orders(rt: HostRuntime) {
    assert_eq!(rt; told_apart(&rt, rt.alloc(), &JAMS), None);
}

#[test]
fn walks_and_moves_over_borders_in_ten_orders(rt: HostRuntime) {
    assert_eq!(rt; told_apart(&rt, rt.alloc(), &OTHERS), None);
}
