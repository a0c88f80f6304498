//! Whether the partitions of four nodes say that they send something.

ghost use Rattle.std.specs.Prelude.{◌<◌};
ghost use Rattle.law_in_range.specs.Setups.{HaveFittingPlans};

use crate::files::{Files, ONE_WALK, WALK, town_of};
use crate::first_second::sends_at_first;
use parted_day::{TownPart, run_of, share};
use rows::Plan;
use std::alloc::Global;
use std::thread::Threads;
use town::{DayInput, Town};
use town_fixtures::have_fitting_plans;

/// A walk of one second from the second node to the last, in the first second of the day.
static EARLY: Files = Files {
    plans: "person,plan,kind,name,link,time,route\n\
        p1,0,act,home,L1,0,\np1,0,leg,walk,,1,\np1,0,act,work,L3,,\n",
    ..WALK
};

/// Whether one of four partitions sends something in the first second.
fn sends_of(alloc: Global, day: &DayInput, number: u32) -> Option<bool>
    requires given { HaveFittingPlans day.now }
    requires there { number < 4 }
    requires some { 0 < day.now.town.now.settings.end_second }
{
    let Ok(shared) = share(alloc, day, 4) else {
        return None;
    };
    let run = run_of(alloc, &*day, &shared, false);
    sends_at_first::<TownPart>(alloc, &run, number)
}

fn sends_in(alloc: Global, town: &Town, chosen: &[Plan], number: u32) -> Option<bool> {
    let day = DayInput {
        town,
        chosen,
        iteration: 0,
    };
    if number >= 4 || town.settings.end_second == 0 || !have_fitting_plans(&day) {
        return None;
    }
    sends_of(alloc, &day, number)
}

/// The same of the town of these files.
fn sends<R: Threads + Sync>(rt: &R, alloc: Global, files: &Files, number: u32) -> Option<bool> {
    let Some(fixture) = town_of(rt, alloc, files) else {
        return None;
    };
    let sends = sends_in(alloc, &fixture.town, &fixture.chosen, number);
    drop(fixture);
    sends
}

/// Where nobody leaves a partition it says that it sends nothing.
#[test]
fn nothing_is_sent_where_nobody_leaves(rt: HostRuntime) {
    for number in 0..4 {
        assert!(rt; sends(&rt, rt.alloc(), &ONE_WALK, number) == Some(false));
    }
}

/// Of four partitions the one in which somebody sets out for another one sends something.
#[test]
fn who_sets_out_is_sent(rt: HostRuntime) {
    for number in 0..4 {
        assert!(rt; sends(&rt, rt.alloc(), &EARLY, number) == Some(number == 1));
    }
}
