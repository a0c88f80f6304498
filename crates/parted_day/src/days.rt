//! The day of a town in partitions.

ghost use Rattle.std.specs.Prelude.{◌≡◌, ◌≤◌, false, IfOk};
ghost use Rattle.limits.specs.declared.TheConstants.{MAX_PARTITIONS};
ghost use Rattle.events.specs.Lines.{AreInBook};
ghost use Rattle.law_in_range.specs.Setups.{HaveFittingPlans};
ghost use Rattle.town.specs.Views.{setup};
ghost use Rattle.traffic.specs.Day as traffic_day;

use crate::part::TownPart;
use crate::runs::{run_of, share};
use crate::threads::threaded_day;
use divided_day::divided_day;
use edge_files::Gate;
use events::Event;
use part_seconds::Run;
use spread::Spread;
use std::alloc::{AllocError, Global};
use std::sync::Wait;
use std::thread::Threads;
use town::DayInput;
use workers::Crew;

/// The events of a run whose events are taken at its end: computed on this thread by one worker, or on several threads.
fn events_of<'a, R: Threads + Wait + Sync, G: Gate>(
    rt: &R,
    run: &Run<'a>,
    workers: u32,
    gate: &G,
) -> Result<Vec<Event>, AllocError>
    requires workers { (1 ≤ workers) × (workers ≤ MAX_PARTITIONS) }
    requires stays { run.now.streams ≡ false }
    ensures events { IfOk result (λ events. events.items ≡ traffic_day.day (setup run.now.day.now)) }
    ensures named { IfOk result (λ events. AreInBook events.items run.now.day.now.town.now.book) }
{
    if workers == 1 {
        let events = divided_day::<TownPart<'a>, G>(run.alloc, run, gate)?;
        return Ok(events);
    }
    let crew = Crew {
        rt,
        gate,
        workers,
        loads: run.loads,
    };
    let events = threaded_day::<TownPart<'a>, R, G>(&crew, run.alloc, run)?;
    Ok(events)
}

/// The events of a day, in the order of their keys, computed in so many partitions by so many workers: one of them works on this thread,
/// and more each on a thread of its own. They are those of the day of the undivided town, whatever the numbers of both are. The gate is
/// passed before each second of a partition, also where there is one partition alone.
///
/// # Errors
///
/// `AllocError`: there is no memory for the day.
pub fn day_in_parts<R: Threads + Wait + Sync, G: Gate>(
    rt: &R,
    alloc: Global,
    day: &DayInput,
    spread: Spread,
    gate: &G,
) -> Result<Vec<Event>, AllocError>
    requires given { HaveFittingPlans day.now }
    ensures events { IfOk result (λ events. events.items ≡ traffic_day.day (setup day.now)) }
    ensures named { IfOk result (λ events. AreInBook events.items day.now.town.now.book) }
{
    let shared = share(alloc, day, spread.partitions)?;
    let run = run_of(alloc, &*day, &shared, false);
    let events = events_of(rt, &run, spread.workers, gate)?;
    Ok(events)
}
