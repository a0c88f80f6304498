//! The steps of one partition alone, where each of four nodes has a partition.

ghost use Rattle.std.specs.Prelude.{◌<◌};
ghost use Rattle.law_in_range.specs.Setups.{HaveFittingPlans};

use crate::files::{Files, LINE, ONE_WALK, town_of};
use crate::orders::{one_alone, steps_alone};
use parted_day::{TownPart, run_of, share};
use rows::Plan;
use std::alloc::Global;
use std::thread::Threads;
use step_core::Step;
use town::{DayInput, Town};
use town_fixtures::have_fitting_plans;

/// A person at home until 100, who drives to work on the next link, on a day that ends in second 300.
const DRIVE: Files = Files {
    settings: "{\"end_second\":300}",
    plans: "person,plan,kind,name,link,time,route\n\
        p1,0,act,home,L1,100,\np1,0,leg,car,,,L1 L2\np1,0,act,work,L2,,\n",
    ..LINE
};

static LONG: Files = DRIVE;

/// The same on a day of one second.
static SHORT: Files = Files {
    settings: "{\"end_second\":1}",
    ..DRIVE
};

/// The same where a hole takes twenty seconds along a link.
static SLOW_HOLES: Files = Files {
    settings: "{\"end_second\":300,\"hole_speed\":500}",
    ..DRIVE
};

/// How many steps a partition of four does alone and what the next one comes to, and how many seconds it comes to in a bundle of its own.
type Came = (Option<(u32, Step)>, Option<u32>);

fn came_of(alloc: Global, day: &DayInput, number: u32) -> Came
    requires given { HaveFittingPlans day.now }
    requires there { number < 4 }
{
    let Ok(shared) = share(alloc, day, 4) else {
        return (None, None);
    };
    let run = run_of(alloc, &*day, &shared, false);
    (
        steps_alone::<TownPart>(alloc, &run, number),
        one_alone::<TownPart>(alloc, &run, number),
    )
}

fn came_in(alloc: Global, town: &Town, chosen: &[Plan], number: u32) -> Came {
    let day = DayInput {
        town,
        chosen,
        iteration: 0,
    };
    if number >= 4 || !have_fitting_plans(&day) {
        return (None, None);
    }
    came_of(alloc, &day, number)
}

/// The same of the town of these files.
fn came<R: Threads + Sync>(rt: &R, alloc: Global, files: &Files, number: u32) -> Came {
    let Some(fixture) = town_of(rt, alloc, files) else {
        return (None, None);
    };
    let came = came_in(alloc, &fixture.town, &fixture.chosen, number);
    drop(fixture);
    came
}

/// Whether a partition does so many steps alone, and so many seconds in a bundle of its own, and then waits for a neighbour that stands at
/// its start.
fn waits_after(came: &Came, done: u32, neighbour: u32) -> bool {
    let waits = Step::Waits {
        neighbour,
        published: 0,
    };
    *came == (Some((done, waits)), Some(done))
}

/// Partition 1 does the one second that needs no neighbour: what partition 0 does reaches it after the ten seconds of a link, and what
/// partition 2 does after the one second of a hole. So it waits for partition 2 then, and a bundle of it alone is given back.
#[test]
fn one_second_needs_no_neighbour(rt: HostRuntime) {
    let long = came(&rt, rt.alloc(), &LONG, 1);
    assert!(rt; waits_after(&long, 1, 2));
    let short = came(&rt, rt.alloc(), &SHORT, 1);
    assert!(rt; short == (Some((1, Step::Ended)), Some(1)));
}

/// Where a hole takes longer the lags are ten seconds along a link and twenty against it.
#[test]
fn lags_are_of_links_and_of_holes(rt: HostRuntime) {
    let first = came(&rt, rt.alloc(), &SLOW_HOLES, 0);
    assert!(rt; waits_after(&first, 20, 1));
    let second = came(&rt, rt.alloc(), &SLOW_HOLES, 1);
    assert!(rt; waits_after(&second, 10, 0));
}

/// A walk of one second leads from partition 1 to partition 3, which no link joins.
#[test]
fn a_walk_makes_neighbours(rt: HostRuntime) {
    let last = came(&rt, rt.alloc(), &ONE_WALK, 3);
    assert!(rt; waits_after(&last, 1, 1));
}
