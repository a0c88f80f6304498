//! A run from its start to its end: always a partition with the fewest done seconds does the next step.

ghost use Rattle.std.specs.Prelude.{◌≡◌, ◌+◌, ◌<◌, IsTrue, ◌↔◌, EachIndex, length, IfOk, OnOk};
ghost use Rattle.step_core.specs.{Cores.IsCore, Cores.AllAt, Cores.done_at, Cores.number_in_round, Views.EachAt};

use crate::cores::Core;
use crate::part::Part;
use edge_files::Gate;
use std::alloc::AllocError;

/// Who steps next in the round of a second, where so many partitions have stepped: by number in every other round, and backwards in the
/// others, so that a round begins with those whose rows the caches still have from the one before.
fn number_in_round(count: u32, second: u32, stepped: u32) -> u32
    requires { stepped < count }
    ensures { result ≡ number_in_round count second stepped }
{
    if second % 2 == 0 {
        stepped
    } else {
        count - 1 - stepped
    }
}

impl<T: Part> Core<T> {
    /// Whether every partition has done all its seconds.
    pub fn all_ended(&self, run: &T::Run) -> bool
        ensures { IsTrue result ↔ EachIndex self.now.done.items (λ p. done_at self.now.done.items p ≡ (T.net run.now).end) }
    {
        let end = T::end(run);
        self.done.iter().all(|done| *done == end)
    }

    /// The partitions, by number.
    pub fn parts(&self) -> &[T]
        ensures { result.now ≡ self.now.parts.items }
    {
        &self.parts
    }

    /// The same, out of the core.
    pub fn into_parts(self) -> Vec<T>
        ensures { result.items ≡ self.parts.items }
    {
        let Core {
            done: _done,
            stopped: _stopped,
            borders: _borders,
            parts,
            wheels: _wheels,
        } = self;
        parts
    }

    /// All partitions have done so many seconds: each does the next one, to and fro by number. So it is always one with the fewest done
    /// seconds that steps, and it may. The gate is passed before each step.
    ///
    /// # Errors
    ///
    /// `AllocError`: there was no memory for a second of a partition.
    #[tactic(auto, using(crate::proofs::Together::each_at))]
    pub fn do_round<G: Gate>(
        &mut self,
        run: &T::Run,
        gate: &G,
        second: u32,
    ) -> Result<(), AllocError>
        requires core { IsCore T.nothing (T.net run.now) (T.borders run.now) T.see (T.stands run.now) T.spent (T.right run.now)
            self.old.done.items self.old.stopped.items self.old.borders.items self.old.parts.items self.old.wheels.items }
        requires at { AllAt (T.net run.now).parts second self.old.done.items self.old.stopped.items }
        requires before_end { second < (T.net run.now).end }
        ensures core { IsCore T.nothing (T.net run.now) (T.borders run.now) T.see (T.stands run.now) T.spent (T.right run.now)
            self.new.done.items self.new.stopped.items self.new.borders.items self.new.parts.items self.new.wheels.items }
        ensures at { OnOk result (AllAt (T.net run.now).parts (second + 1) self.new.done.items self.new.stopped.items) }
        ensures each { OnOk result (EachAt T.nothing T.see (T.stands run.now) (second + 1) (λ p. length (T.borders run.now p))
            (T.net run.now).parts self.new.parts.items) }
    {
        let count = T::count(run);
        for stepped in 0..count {
            let number = number_in_round(count, second, stepped);
            gate.pass(number, second);
            self.advance(run, number)?;
        }
        Ok(())
    }

    /// Runs a core from its start to the end: every partition has then done all its seconds, and holds and has told what it has by then by
    /// itself.
    ///
    /// # Errors
    ///
    /// `AllocError`: there was no memory for a second of a partition.
    pub fn run<G: Gate>(mut self, run: &T::Run, gate: &G) -> Result<Vec<T>, AllocError>
        requires core { IsCore T.nothing (T.net run.now) (T.borders run.now) T.see (T.stands run.now) T.spent (T.right run.now)
            self.done.items self.stopped.items self.borders.items self.parts.items self.wheels.items }
        requires start { AllAt (T.net run.now).parts 0 self.done.items self.stopped.items }
        ensures count { IfOk result (λ parts. length parts.items ≡ (T.net run.now).parts) }
        ensures ended { IfOk result (λ parts. EachAt T.nothing T.see (T.stands run.now) (T.net run.now).end
            (λ p. length (T.borders run.now p)) (T.net run.now).parts parts.items) }
    {
        for second in 0..T::end(run) {
            self.do_round(run, gate, second)?;
        }
        Ok(self.into_parts())
    }
}
