//! A day of a town in partitions, on several threads, whatever a partition is.

ghost use Rattle.std.specs.Prelude.{◌≡◌, ◌≤◌, false, IfOk};
ghost use Rattle.limits.specs.declared.TheConstants.{MAX_PARTITIONS};
ghost use Rattle.events.specs.Lines.{AreInBook};
ghost use Rattle.law_in_range.specs.Setups.{HaveFittingPlans};
ghost use Rattle.town.specs.Views.{setup};
ghost use Rattle.traffic.specs.Day as traffic_day;

use divided_day::{DayPart, merged_events};
use edge_files::Gate;
use events::Event;
use std::alloc::{AllocError, Global};
use std::sync::Wait;
use std::thread::Threads;
use workers::{Crew, run_day};

/// The events of a day, in the order of their keys, computed by its partitions on 1 to 64 threads: each does its next second as soon as all
/// its neighbours are far enough. They are those of the day of the undivided town, however it is divided, on however many threads, and
/// whichever thread gets on first.
///
/// # Errors
///
/// `AllocError`: there is no memory for the day.
pub(crate) fn threaded_day<T: DayPart + Send + Sync, R: Threads + Wait + Sync, G: Gate>(
    crew: &Crew<R, G>,
    alloc: Global,
    run: &T::Run,
) -> Result<Vec<Event>, AllocError>
where
    T::Run: Send + Sync,
    T::Parcel: Send + Sync,
    requires workers { (1 ≤ crew.now.workers) × (crew.now.workers ≤ MAX_PARTITIONS) }
    requires given { HaveFittingPlans (T.day run.now) }
    requires stays { T.streams run.now ≡ false }
    ensures events { IfOk result (λ events. events.items ≡ traffic_day.day (setup (T.day run.now))) }
    ensures named { IfOk result (λ events. AreInBook events.items (T.day run.now).town.now.book) }
{
    let parts = run_day::<T, R, G>(crew, alloc, run)?;
    let events = merged_events::<T>(alloc, run, parts)?;
    Ok(events)
}
