//! What each partition of a day tells: of the second that it did last, and of the end of the day.

ghost use Rattle.std.specs.Prelude.{◌≡◌, true, map, IfOk};
ghost use Rattle.law_in_range.specs.Setups.{HaveFittingPlans};
ghost use Rattle.streamed_day.specs.Telling.{CanTell, AllCanTell, AllAreAtEnd, told_last, told_at_end};

use divided_day::DayPart;
use events::{EventList, Rows};
use std::alloc::{AllocError, Global};

/// What a partition told in the second that it did last, in the order of the keys.
///
/// # Errors
///
/// `AllocError`: there is no memory for the events.
pub fn told_of<T: DayPart>(alloc: Global, run: &T::Run, part: &T) -> Result<EventList, AllocError>
    requires streams { T.streams run.now ≡ true }
    requires can { CanTell T.nothing (T.net run.now) (T.borders run.now) T.see (T.stands run.now) part.now }
    ensures { IfOk result (λ events. events ≡ told_last (T.day run.now) (T.owner run.now) (T.see part.now)) }
{
    let rows = Vec::from_slice(alloc, part.told(run))?;
    Ok(Rows { rows })
}

/// What each of the partitions told in the second that it did last, in their order.
///
/// # Errors
///
/// `AllocError`: there is no memory for an event.
pub(crate) fn told_by<T: DayPart>(
    alloc: Global,
    run: &T::Run,
    parts: &[T],
) -> Result<Vec<EventList>, AllocError>
    requires streams { T.streams run.now ≡ true }
    requires can { AllCanTell T.nothing (T.net run.now) (T.borders run.now) T.see (T.stands run.now) parts.now }
    ensures { IfOk result (λ lists. lists.items ≡ map (λ x. told_last (T.day run.now) (T.owner run.now) (T.see x)) parts.now) }
{
    let mut lists = Vec::new(alloc);
    for part in parts {
        lists.push(told_of::<T>(alloc, run, part)?)?;
    }
    Ok(lists)
}

/// What each of the partitions tells of the end of the day, in their order.
///
/// # Errors
///
/// `AllocError`: there is no memory for an event.
pub(crate) fn ends_told_by<T: DayPart>(
    alloc: Global,
    run: &T::Run,
    parts: Vec<T>,
) -> Result<Vec<EventList>, AllocError>
    requires given { HaveFittingPlans (T.day run.now) }
    requires streams { T.streams run.now ≡ true }
    requires ended { AllAreAtEnd T.nothing (T.net run.now) (T.borders run.now) T.see (T.stands run.now) parts.items }
    ensures { IfOk result (λ lists. lists.items ≡ map (λ x. told_at_end (T.day run.now) (T.owner run.now) (T.see x)) parts.items) }
{
    let mut lists = Vec::new(alloc);
    for part in parts {
        lists.push(part.finish(alloc, run)?)?;
    }
    Ok(lists)
}
