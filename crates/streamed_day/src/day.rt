//! A day that gives its events while it runs.

ghost use Rattle.std.specs.Prelude.{◌≡◌, false, true, is_some, IfOk, IfSome};
ghost use Rattle.law_in_range.specs.Setups.{HaveFittingPlans};
ghost use Rattle.town.specs.Views.{setup};
ghost use Rattle.traffic.specs.Day as traffic_day;
ghost use Rattle.streamed_day.specs.{Coming.to_come, Coming.pieces_left, Telling.IsCoreAt};

use crate::pieces::{end_of_day, last_second, take_turn};
use divided_day::DayPart;
use edge_files::Gate;
use event_writer::EventSource;
use events::Event;
use std::alloc::{AllocError, Global};
use step_core::Core;

/// A day whose partitions do their seconds while its events are taken: each second is a piece, and the end of the day another one. All
/// partitions work on this thread, in rounds, and the gate is passed before each second of each.
pub struct StreamedDay<'a, T: DayPart, G> {
    run: &'a T::Run,
    gate: &'a G,
    /// How many seconds are over.
    second: u32,
    /// The partitions after these seconds; none once the end was told.
    core: Option<Core<T>>,
    /// Whether memory was wanting for a piece: it is of no use then.
    spent: bool,
}

impl<'a, T: DayPart, G> Drop for StreamedDay<'a, T, G> {
    fn drop(self) {
        let StreamedDay {
            run: _run,
            gate: _gate,
            second: _second,
            core: _core,
            spent: _spent,
        } = self;
    }
}

impl<'a, T: DayPart, G: Gate> EventSource for StreamedDay<'a, T, G> {
    ghost rest = { λ s. to_come (setup (T.day s.run.now)) (T.net s.run.now).end s.second (is_some s.core) };

    ghost pieces = { λ s. pieces_left (T.net s.run.now).end s.second (is_some s.core) };

    ghost ready = { λ s. (s.spent ≡ false) × HaveFittingPlans (T.day s.run.now) × (T.streams s.run.now ≡ true)
        × IfSome s.core (λ core. IsCoreAt T.nothing (T.net s.run.now) (T.borders s.run.now) T.see (T.stands s.run.now) T.spent
        (T.right s.run.now)
        s.second core.done.items core.stopped.items core.borders.items core.parts.items core.wheels.items) };

    fn next_piece(&mut self, alloc: Global) -> Result<Option<Vec<Event>>, AllocError> {
        let Some(mut core) = self.core.take() else {
            return Ok(None);
        };
        self.spent = true;
        if self.second >= T::end(self.run) {
            let piece = end_of_day::<T>(alloc, self.run, core)?;
            self.spent = false;
            return Ok(Some(piece));
        }
        for number in 0..T::count(self.run) {
            self.gate.pass(number, self.second);
            take_turn::<T>(self.run, &mut core, number, self.second)?;
        }
        let piece = last_second::<T>(alloc, self.run, &core)?;
        self.second += 1;
        self.core = Some(core);
        self.spent = false;
        Ok(Some(piece))
    }
}

impl<'a, T: DayPart, G: Gate> StreamedDay<'a, T, G> {
    /// A day before its first second. All its events are still to come.
    ///
    /// # Errors
    ///
    /// `AllocError`: there is no memory for its partitions.
    pub fn new(
        alloc: Global,
        run: &'a T::Run,
        gate: &'a G,
    ) -> Result<StreamedDay<'a, T, G>, AllocError>
        requires given { HaveFittingPlans (T.day run.now) }
        requires streams { T.streams run.now ≡ true }
        ensures ready { IfOk result ⟦<StreamedDay<'a, T, G> as EventSource>⟧.ready }
        ensures rest { IfOk result
            (λ day. ⟦<StreamedDay<'a, T, G> as EventSource>⟧.rest day ≡ traffic_day.day (setup (T.day run.now))) }
    {
        let core = Core::<T>::new(alloc, run)?;
        Ok(StreamedDay {
            run,
            gate,
            second: 0,
            core: Some(core),
            spent: false,
        })
    }
}
