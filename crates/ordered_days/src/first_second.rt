//! The first second of one partition of a day.

ghost use Rattle.std.specs.Prelude.{◌<◌};
ghost use Rattle.law_in_range.specs.Setups.{HaveFittingPlans};

use divided_day::DayPart;
use std::alloc::Global;

/// Whether a partition of a day says that it sends something in its first second; none where memory is wanting.
pub fn sends_at_first<T: DayPart>(alloc: Global, run: &T::Run, number: u32) -> Option<bool>
    requires given { HaveFittingPlans (T.day run.now) }
    requires there { number < (T.net run.now).parts }
    requires some { 0 < (T.net run.now).end }
{
    let Ok(mut part) = T::start(alloc, run, number) else {
        return None;
    };
    match part.second(run) {
        Ok(()) => Some(part.next_parcel(0).is_some()),
        Err(_) => None,
    }
}
