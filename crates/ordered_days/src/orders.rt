//! A day in an order, and one partition of a day.

ghost use Rattle.std.specs.Prelude.{◌≡◌, ◌<◌, false, IfOk, IfSome};
ghost use Rattle.law_in_range.specs.Setups.{HaveFittingPlans};
ghost use Rattle.step_core.specs.Cores.{IsCore, AllAt};
ghost use Rattle.town.specs.Views.{setup};
ghost use Rattle.traffic.specs.Day as traffic_day;

use divided_day::{DayPart, merged_events};
use events::Event;
use std::alloc::{AllocError, Global};
use step_cases::{Order, alone, bring_to_end, steps_of};
use step_core::{Core, Step};

/// The partitions of a day at their start.
fn start<T: DayPart>(alloc: Global, run: &T::Run) -> Result<Core<T>, AllocError>
    requires given { HaveFittingPlans (T.day run.now) }
    ensures core { IfOk result (λ core. IsCore T.nothing (T.net run.now) (T.borders run.now) T.see (T.stands run.now) T.spent
        (T.right run.now) core.done.items core.stopped.items core.borders.items core.parts.items core.wheels.items) }
    ensures start { IfOk result (λ core. AllAt (T.net run.now).parts 0 core.done.items core.stopped.items) }
{
    Core::<T>::new(alloc, run)
}

/// The events of a day whose partitions are asked for their steps in this order until all are at the end; none where they do not come
/// there, or memory is wanting.
pub fn in_order<T: DayPart>(alloc: Global, run: &T::Run, order: &Order) -> Option<Vec<Event>>
    requires given { HaveFittingPlans (T.day run.now) }
    requires stays { T.streams run.now ≡ false }
    ensures { IfSome result (λ events. events.items ≡ traffic_day.day (setup (T.day run.now))) }
{
    let Ok(mut core) = start::<T>(alloc, run) else {
        return None;
    };
    if !bring_to_end(run, order, &mut core) {
        return None;
    }
    match merged_events::<T>(alloc, run, core.into_parts()) {
        Ok(events) => Some(events),
        Err(_) => None,
    }
}

/// How many steps a partition of a day does while no other one steps, and what the next one comes to; none where memory is wanting.
pub fn steps_alone<T: DayPart>(alloc: Global, run: &T::Run, number: u32) -> Option<(u32, Step)>
    requires given { HaveFittingPlans (T.day run.now) }
    requires there { number < (T.net run.now).parts }
{
    let Ok(mut core) = start::<T>(alloc, run) else {
        return None;
    };
    steps_of(run, &mut core, number)
}

/// How many seconds a partition of a day comes to in a bundle of its own, while its neighbours stand still at their start; none where
/// memory is wanting.
pub fn one_alone<T: DayPart>(alloc: Global, run: &T::Run, number: u32) -> Option<u32>
where
    T::Parcel: Send,
    requires given { HaveFittingPlans (T.day run.now) }
    requires there { number < (T.net run.now).parts }
{
    alone::<T>(alloc, run, number)
}
