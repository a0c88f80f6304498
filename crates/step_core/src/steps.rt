//! The steps of a core.

ghost use Rattle.std.specs.Prelude.{◌≡◌, ◌+◌, ◌<◌, true, false, [], length, get_or, set, IfOk, OnOk, OnErr};
ghost use Rattle.step_core.specs.{Cores.IsCore, Cores.CameTo, Cores.is_stopped, Cores.done_at, Nets.MayStep};

use crate::cores::{Core, Step};
use crate::hearing::{do_second, first_late};
use crate::part::{Border, BorderList, Part};
use std::alloc::AllocError;

/// Whether a partition was stopped.
fn is_stopped(stopped: &[bool], number: u32) -> bool
    requires { number < length stopped.now }
    ensures { result ≡ is_stopped stopped.now number }
{
    stopped[number as usize]
}

/// How many seconds a partition has done.
fn second_of(done: &[u32], number: u32) -> u32
    requires { number < length done.now }
    ensures { result ≡ done_at done.now number }
{
    done[number as usize]
}

/// The neighbours of a partition.
fn borders_of(borders: &[BorderList], number: u32) -> &[Border]
    requires { number < length borders.now }
    ensures { result.now ≡ get_or borders.now number [] }
{
    let list = &borders[number as usize];
    &list.rows
}

impl<T: Part> Core<T> {
    /// A partition does its next second, which it may. It absorbs from each neighbour the parcel of the second that lies so far back as
    /// the lag, does the second, and sends a parcel to each.
    ///
    /// # Errors
    ///
    /// `AllocError`: there was no memory for the second; the partition stays where it is, and is stopped from then on.
    pub(crate) fn advance(&mut self, run: &T::Run, number: u32) -> Result<(), AllocError>
        requires core { IsCore T.nothing (T.net run.now) (T.borders run.now) T.see (T.stands run.now) T.spent (T.right run.now)
            self.old.done.items self.old.stopped.items self.old.borders.items self.old.parts.items self.old.wheels.items }
        requires may { MayStep (T.net run.now) number (done_at self.old.done.items) }
        requires goes { is_stopped self.old.stopped.items number ≡ false }
        ensures core { IsCore T.nothing (T.net run.now) (T.borders run.now) T.see (T.stands run.now) T.spent (T.right run.now)
            self.new.done.items self.new.stopped.items self.new.borders.items self.new.parts.items self.new.wheels.items }
        ensures came { OnOk result (self.new.done.items ≡ set self.old.done.items number (done_at self.old.done.items number + 1)) }
        ensures goes { OnOk result (self.new.stopped.items ≡ self.old.stopped.items) }
        ensures stays { OnErr result (self.new.done.items ≡ self.old.done.items) }
        ensures stopped { OnErr result (self.new.stopped.items ≡ set self.old.stopped.items number true) }
    {
        let place = number as usize;
        let second = second_of(&self.done, number);
        let borders = borders_of(&self.borders, number);
        match do_second(
            run,
            borders,
            number,
            second,
            &mut self.parts[place],
            &mut self.wheels,
        ) {
            Ok(()) => {
                self.done[place] = second + 1;
                Ok(())
            }
            Err(error) => {
                self.stopped[place] = true;
                Err(error)
            }
        }
    }

    /// A partition does its next second, if it may: it has not come to the end, and no neighbour is behind it by the lag or more. It
    /// absorbs from each neighbour the parcel of the second that lies so far back as the lag, does the second, and sends a parcel to each.
    /// Where it may not, the least neighbour is named that it waits for; nothing is changed then.
    ///
    /// # Errors
    ///
    /// `AllocError`: there was no memory for a second of this partition, now or before; it stays where it is, and is stopped from then on.
    /// The others go on as far as the lags allow.
    pub fn step(&mut self, run: &T::Run, number: u32) -> Result<Step, AllocError>
        requires core { IsCore T.nothing (T.net run.now) (T.borders run.now) T.see (T.stands run.now) T.spent (T.right run.now)
            self.old.done.items self.old.stopped.items self.old.borders.items self.old.parts.items self.old.wheels.items }
        requires there { number < (T.net run.now).parts }
        ensures core { IsCore T.nothing (T.net run.now) (T.borders run.now) T.see (T.stands run.now) T.spent (T.right run.now)
            self.new.done.items self.new.stopped.items self.new.borders.items self.new.parts.items self.new.wheels.items }
        ensures came { IfOk result (CameTo (T.net run.now) number self.old.done.items self.new.done.items) }
        ensures goes { IfOk result (λ _. (self.new.stopped.items ≡ self.old.stopped.items)
            × (is_stopped self.old.stopped.items number ≡ false)) }
        ensures stopped { OnErr result ((self.new.done.items ≡ self.old.done.items)
            × (self.new.stopped.items ≡ set self.old.stopped.items number true)) }
    {
        if is_stopped(&self.stopped, number) {
            return Err(AllocError);
        }
        let second = second_of(&self.done, number);
        if second >= T::end(run) {
            return Ok(Step::Ended);
        }
        let borders = borders_of(&self.borders, number);
        match first_late(borders, second, &self.done) {
            Some(late) => {
                return Ok(Step::Waits {
                    neighbour: late.neighbour,
                    published: late.published,
                });
            }
            None => {}
        }
        self.advance(run, number)?;
        Ok(Step::Done)
    }
}
