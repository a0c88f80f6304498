//! What a partition is to the core.

ghost use Rattle.std.specs.Prelude.{◌≡◌, ◌+◌, ◌<◌, ◌≤◌, ℕ, true, List, length, set};
ghost use Rattle.std.specs.Prelude.{IfNone, IfSome, IfOk, OnOk, OnErr};
ghost use Rattle.step_core.specs.Nets.{Net};
ghost use Rattle.step_core.specs.Views.{PartView, in_place, AreEmpty, IsNextPlace, HasHeard, HasSent, HasDone, IsAt, Stays};

use events::Rows;
use std::alloc::{AllocError, Global};

/// A neighbour of a partition.
#[derive(Clone, Copy, Debug, PartialEq, Eq)]
pub struct Border {
    pub neighbour: u32,
    /// In seconds: what the neighbour does changes nothing at the partition before so many have passed.
    pub lag: u32,
}

/// The neighbours of a partition, ascending.
pub type BorderList = Rows<Border>;

/// One partition of a run. It does its seconds by itself, on what it holds and on the parcels that its neighbours sent.
pub trait Part: Drop {
    ghost use Rattle.step_core.specs.declared.part.Border.{Border};

    /// What all partitions are about.
    type Run;

    /// What one partition sends to a neighbour in one second.
    type Parcel: Drop;

    /// The parcel with nothing in it, of which there may be many: in most seconds a partition sends nothing to most of its neighbours.
    ghost nothing: { Self.Parcel };

    /// The partitions of a run, and the neighbours of each, ascending, with the lags from them.
    ghost net: { Self.Run → Net };

    ghost borders: { Self.Run → ℕ → List Border };

    /// What the core sees of a partition.
    ghost see: { Self → PartView Self.Parcel };

    /// It holds what its partition holds by itself after its seconds, and has told what belongs to it.
    ghost stands: { Self.Run → Self → Type 0 };

    /// It found no memory in a second. It is of no use then.
    ghost spent: { Self → Type 0 };

    /// Which parcel is right: of a sender, a receiver and a second.
    ghost right: { Self.Run → ℕ → ℕ → ℕ → Self.Parcel → Type 0 };

    /// A parcel with nothing in it. It takes no memory.
    fn nothing() -> Self::Parcel
        ensures { result ≡ nothing };

    /// Whether it is seen at once that nothing is in a parcel.
    fn is_nothing(parcel: &Self::Parcel) -> bool
        ensures { result ≡ true → parcel.now ≡ nothing };

    /// How many partitions a run has.
    fn count(run: &Self::Run) -> u32
        ensures { result ≡ (net run.now).parts };

    /// How many seconds each of them has to do.
    fn end(run: &Self::Run) -> u32
        ensures { result ≡ (net run.now).end };

    /// The neighbours of a partition, ascending.
    ///
    /// # Errors
    ///
    /// `AllocError`: there is no memory for them.
    fn borders(alloc: Global, run: &Self::Run, number: u32) -> Result<BorderList, AllocError>
        requires { number < (net run.now).parts }
        ensures { IfOk result (λ rows. rows ≡ borders run.now number) };

    /// A partition at the start of a run, with an empty place for each neighbour.
    ///
    /// # Errors
    ///
    /// `AllocError`: there is no memory for it.
    fn start(alloc: Global, run: &Self::Run, number: u32) -> Result<Self, AllocError>
        requires { number < (net run.now).parts }
        ensures { IfOk result (IsAt nothing see (stands run.now) number 0 (length (borders run.now number))) };

    /// Counts in the parcel that neighbour `place` sent, which has to lie there until the next second. It need not be called where nothing
    /// is in it.
    fn absorb(&mut self, place: usize, parcel: Self::Parcel)
        requires there { place < length (see self.old).inbox }
        requires empty { in_place nothing (see self.old).inbox place ≡ nothing }
        ensures inbox { (see self.new).inbox ≡ set (see self.old).inbox place parcel }
        ensures outbox { (see self.new).outbox ≡ (see self.old).outbox }
        ensures number { (see self.new).number ≡ (see self.old).number }
        ensures seconds { (see self.new).seconds ≡ (see self.old).seconds }
        ensures stands { Stays stands self.old self.new };

    /// Does a second, on what it holds and on the parcels that it absorbed, and makes a parcel for each neighbour.
    ///
    /// # Errors
    ///
    /// `AllocError`: there is no memory for it. The partition is then spent.
    fn second(&mut self, run: &Self::Run) -> Result<(), AllocError>
        requires stands { stands run.now self.old }
        requires before_end { (see self.old).seconds < (net run.now).end }
        requires heard { HasHeard nothing (right run.now) (see self.old).number (see self.old).seconds
            (borders run.now (see self.old).number) (see self.old).inbox }
        requires places { length (see self.old).inbox ≡ length (borders run.now (see self.old).number) }
        requires gone { AreEmpty nothing (length (borders run.now (see self.old).number)) (see self.old).outbox }
        ensures done { OnOk result (HasDone nothing see (stands run.now) (see self.old).number ((see self.old).seconds + 1)
            (length (borders run.now (see self.old).number)) self.new) }
        ensures sent { OnOk result (HasSent nothing (right run.now) (see self.old).number (see self.old).seconds
            (borders run.now (see self.old).number) (see self.new).outbox) }
        ensures spent { OnErr result (spent self.new) };

    /// The first neighbour from this place on in whose parcel that is to go something may be. The parcels before it, or all from there on
    /// where there is none, need not be taken out.
    fn next_parcel(&self, from: usize) -> Option<usize>
        ensures none { IfNone result ((place : ℕ) → from ≤ place → in_place nothing (see self.now).outbox place ≡ nothing) }
        ensures some { IfSome result (IsNextPlace nothing (see self.now).outbox from) };

    /// Takes out the parcel for neighbour `place`.
    fn outbox(&mut self, place: usize) -> Self::Parcel
        requires { place < length (see self.old).outbox }
        ensures parcel { result ≡ in_place nothing (see self.old).outbox place }
        ensures outbox { (see self.new).outbox ≡ set (see self.old).outbox place nothing }
        ensures inbox { (see self.new).inbox ≡ (see self.old).inbox }
        ensures number { (see self.new).number ≡ (see self.old).number }
        ensures seconds { (see self.new).seconds ≡ (see self.old).seconds }
        ensures stands { Stays stands self.old self.new };
}
