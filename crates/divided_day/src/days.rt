//! The day of a town in partitions.

ghost use Rattle.std.specs.Prelude.{◌≡◌, false, length, map, IfOk};
ghost use Rattle.events.specs.Lines.{AreInBook};
ghost use Rattle.law_in_range.specs.Setups.{HaveFittingPlans};
ghost use Rattle.step_core.specs.Views.{EachAt};
ghost use Rattle.town.specs.Views.{setup};
ghost use Rattle.traffic.specs.Day as traffic_day;
ghost use Rattle.traffic.specs.Lists.{below};
ghost use Rattle.divided_day.specs.Days.{told_in};

use crate::part::DayPart;
use edge_files::Gate;
use event_merge::merge;
use events::{Event, EventList};
use std::alloc::{AllocError, Global};
use step_core::Core;

/// What each of the partitions told, by number.
fn told_by<T: DayPart>(
    alloc: Global,
    run: &T::Run,
    parts: Vec<T>,
) -> Result<Vec<EventList>, AllocError>
    requires given { HaveFittingPlans (T.day run.now) }
    requires stays { T.streams run.now ≡ false }
    requires count { length parts.items ≡ (T.net run.now).parts }
    requires ended { EachAt T.nothing T.see (T.stands run.now) (T.net run.now).end (λ p. length (T.borders run.now p))
        (T.net run.now).parts parts.items }
    ensures { IfOk result (λ lists. lists.items ≡ map (told_in (T.day run.now) (T.owner run.now)) (below (T.net run.now).parts)) }
{
    let mut lists = Vec::new(alloc);
    for part in parts {
        lists.push(part.finish(alloc, run)?)?;
    }
    Ok(lists)
}

/// The events of a day, in the order of their keys, out of all its partitions at the end, by number: whoever made them step, and in
/// whatever order. They are those of the day of the undivided town. None of them were taken while the day went on.
///
/// # Errors
///
/// `AllocError`: there is no memory for the events.
pub fn merged_events<T: DayPart>(
    alloc: Global,
    run: &T::Run,
    parts: Vec<T>,
) -> Result<Vec<Event>, AllocError>
    requires given { HaveFittingPlans (T.day run.now) }
    requires stays { T.streams run.now ≡ false }
    requires count { length parts.items ≡ (T.net run.now).parts }
    requires ended { EachAt T.nothing T.see (T.stands run.now) (T.net run.now).end (λ p. length (T.borders run.now p))
        (T.net run.now).parts parts.items }
    ensures events { IfOk result (λ events. events.items ≡ traffic_day.day (setup (T.day run.now))) }
    ensures named { IfOk result (λ events. AreInBook events.items (T.day run.now).town.now.book) }
{
    let lists = told_by::<T>(alloc, run, parts)?;
    let events = merge(alloc, lists)?;
    Ok(events)
}

/// The events of a day, in the order of their keys, computed by its partitions on this thread: always one with the fewest done seconds does
/// the next one. They are those of the day of the undivided town, however it is divided. The gate is passed before each second of a
/// partition.
///
/// # Errors
///
/// `AllocError`: there is no memory for the day.
pub fn divided_day<T: DayPart, G: Gate>(
    alloc: Global,
    run: &T::Run,
    gate: &G,
) -> Result<Vec<Event>, AllocError>
    requires given { HaveFittingPlans (T.day run.now) }
    requires stays { T.streams run.now ≡ false }
    ensures events { IfOk result (λ events. events.items ≡ traffic_day.day (setup (T.day run.now))) }
    ensures named { IfOk result (λ events. AreInBook events.items (T.day run.now).town.now.book) }
{
    let core = Core::<T>::new(alloc, run)?;
    let parts = core.run(run, gate)?;
    let events = merged_events::<T>(alloc, run, parts)?;
    Ok(events)
}
