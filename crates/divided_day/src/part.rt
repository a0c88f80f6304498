//! What a partition is to a day.

ghost use Rattle.std.specs.Prelude.{◌≡◌, ◌-◌, ◌<◌, ℕ, Bool, true, length, if◌then◌else◌, IfOk};
ghost use Rattle.law_in_range.specs.Setups.{HaveFittingPlans};
ghost use Rattle.partition.specs.declared.owner.Owner.{Owner};
ghost use Rattle.step_core.specs.Views.{HasDone, IsAt};
ghost use Rattle.town.specs.declared.day_input.DayInput.{DayInput};
ghost use Rattle.divided_day.specs.Days.{net_in, borders_in, told_at, told_in, end_told_in};

use events::{Event, EventList};
use std::alloc::{AllocError, Global};
use step_core::Part;

/// One partition of the day of a town whose nodes are divided among partitions. A run is about that day and that division.
pub trait DayPart: Part {
    /// The day.
    ghost day: { Self.Run → DayInput };

    /// Who has which node.
    ghost owner: { Self.Run → Owner };

    /// Whether the events of a run are taken while the day goes on: a partition need not keep then those of more than the second
    /// that it did last, and else keeps all.
    ghost streams: { Self.Run → Bool };

    /// The events of the second that the partition did last that belong to it, in the order of their keys. Of a run whose events are taken
    /// while the day goes on.
    fn told(&self, run: &Self::Run) -> &[Event]
        requires streams { streams run.now ≡ true }
        requires there { (Self.see self.now).number < (Self.net run.now).parts }
        requires some { 0 < (Self.see self.now).seconds }
        requires at { HasDone Self.nothing Self.see (Self.stands run.now) (Self.see self.now).number (Self.see self.now).seconds
            (length (Self.borders run.now (Self.see self.now).number)) self.now }
        ensures { result.now ≡ told_at (day run.now) (owner run.now) (Self.see self.now).number ((Self.see self.now).seconds - 1) };

    /// The events of the day that belong to the partition and were not taken while it went on, in the order of their keys: those of its
    /// seconds, where none are taken, and of the end of the day those of the persons whom it has, or sent to a neighbour that did not
    /// absorb them.
    ///
    /// # Errors
    ///
    /// `AllocError`: there is no memory for an event.
    fn finish(self, alloc: Global, run: &Self::Run) -> Result<EventList, AllocError>
        requires given { HaveFittingPlans (day run.now) }
        requires there { (Self.see self).number < (Self.net run.now).parts }
        requires at { IsAt Self.nothing Self.see (Self.stands run.now) (Self.see self).number (Self.net run.now).end
            (length (Self.borders run.now (Self.see self).number)) self }
        ensures { IfOk result (λ events. events
            ≡ (if streams run.now then end_told_in (day run.now) (owner run.now) (Self.see self).number
            else told_in (day run.now) (owner run.now) (Self.see self).number)) };

    /// There are as many partitions as the division has, with its neighbours and lags, and each has all seconds of the day to do.
    ghost nets: { (run : Self.Run) → Self.net run ≡ net_in (day run) (owner run) };

    /// The neighbours of each are those of the division.
    ghost neighbours: { (run : Self.Run) (p : ℕ) → Self.borders run p ≡ borders_in (day run) (owner run) p };
}
