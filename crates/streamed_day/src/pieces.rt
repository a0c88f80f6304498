//! The events of a second and of the end of a day, out of all partitions.

ghost use Rattle.std.specs.Prelude.{◌≡◌, ℕ, ◌+◌, ◌<◌, true, length, IfOk, OnOk};
ghost use Rattle.law_in_range.specs.Setups.{HaveFittingPlans};
ghost use Rattle.step_core.specs.{Cores.IsCore, Cores.AreRound, Views.EachAt};
ghost use Rattle.town.specs.Views.{setup};
ghost use Rattle.traffic.specs.Day.{second_events, end_events, world_at};
ghost use Rattle.streamed_day.specs.Telling.{IsCoreAt};

use crate::telling::{ends_told_by, told_by};
use divided_day::DayPart;
use event_merge::merge;
use events::Event;
use std::alloc::{AllocError, Global};
use step_core::{Core, Step};

/// A partition does a second, where those before it have done it and the others are about to.
///
/// # Errors
///
/// `AllocError`: there is no memory for it.
pub(crate) fn take_turn<T: DayPart>(
    run: &T::Run,
    core: &mut Core<T>,
    number: u32,
    second: u32,
) -> Result<(), AllocError>
    requires there { number < (T.net run.now).parts }
    requires before_end { second < (T.net run.now).end }
    requires core { IsCore T.nothing (T.net run.now) (T.borders run.now) T.see (T.stands run.now) T.spent (T.right run.now)
        core.old.done.items core.old.stopped.items core.old.borders.items core.old.parts.items core.old.wheels.items }
    requires round { AreRound (λ p. p) (T.net run.now).parts number second core.old.done.items core.old.stopped.items }
    ensures core { IsCore T.nothing (T.net run.now) (T.borders run.now) T.see (T.stands run.now) T.spent (T.right run.now)
        core.new.done.items core.new.stopped.items core.new.borders.items core.new.parts.items core.new.wheels.items }
    ensures round { OnOk result
        (AreRound (λ p. p) (T.net run.now).parts (number + 1) second core.new.done.items core.new.stopped.items) }
{
    match core.step(run, number)? {
        Step::Done => Ok(()),
        Step::Waits { .. } => unreachable!(),
        Step::Ended => unreachable!(),
    }
}

/// What happened in the second that all partitions did last, in the order of the keys.
///
/// # Errors
///
/// `AllocError`: there is no memory for the events.
pub(crate) fn last_second<T: DayPart>(
    alloc: Global,
    run: &T::Run,
    core: &Core<T>,
) -> Result<Vec<Event>, AllocError>
    requires given { HaveFittingPlans (T.day run.now) }
    requires streams { T.streams run.now ≡ true }
    requires running { (second : ℕ)
        × IsCoreAt T.nothing (T.net run.now) (T.borders run.now) T.see (T.stands run.now) T.spent (T.right run.now) (second + 1)
        core.now.done.items core.now.stopped.items core.now.borders.items core.now.parts.items core.now.wheels.items }
    ensures { let S = setup (T.day run.now) in IfOk result (λ events. (second : ℕ)
        → IsCoreAt T.nothing (T.net run.now) (T.borders run.now) T.see (T.stands run.now) T.spent (T.right run.now) (second + 1)
        core.now.done.items core.now.stopped.items core.now.borders.items core.now.parts.items core.now.wheels.items
        → events.items ≡ second_events S second (world_at S second)) }
{
    let lists = told_by::<T>(alloc, run, core.parts())?;
    let events = merge(alloc, lists)?;
    Ok(events)
}

/// What partitions that have done all their seconds, by number, tell of the end of the day, in the order of the keys.
///
/// # Errors
///
/// `AllocError`: there is no memory for the events.
pub fn ends_of<T: DayPart>(
    alloc: Global,
    run: &T::Run,
    parts: Vec<T>,
) -> Result<Vec<Event>, AllocError>
    requires given { HaveFittingPlans (T.day run.now) }
    requires streams { T.streams run.now ≡ true }
    requires count { length parts.items ≡ (T.net run.now).parts }
    requires ended { EachAt T.nothing T.see (T.stands run.now) (T.net run.now).end (λ p. length (T.borders run.now p))
        (T.net run.now).parts parts.items }
    ensures { let S = setup (T.day run.now) in let end = (T.net run.now).end in
        IfOk result (λ events. events.items ≡ end_events S end (world_at S end)) }
{
    let lists = ends_told_by::<T>(alloc, run, parts)?;
    let events = merge(alloc, lists)?;
    Ok(events)
}

/// What is told of the end of a day, of which all seconds are done, in the order of the keys.
///
/// # Errors
///
/// `AllocError`: there is no memory for the events.
pub(crate) fn end_of_day<T: DayPart>(
    alloc: Global,
    run: &T::Run,
    core: Core<T>,
) -> Result<Vec<Event>, AllocError>
    requires given { HaveFittingPlans (T.day run.now) }
    requires streams { T.streams run.now ≡ true }
    requires running { IsCoreAt T.nothing (T.net run.now) (T.borders run.now) T.see (T.stands run.now) T.spent (T.right run.now)
        (T.net run.now).end
        core.done.items core.stopped.items core.borders.items core.parts.items core.wheels.items }
    ensures { let S = setup (T.day run.now) in let end = (T.net run.now).end in
        IfOk result (λ events. events.items ≡ end_events S end (world_at S end)) }
{
    let events = ends_of::<T>(alloc, run, core.into_parts())?;
    Ok(events)
}
