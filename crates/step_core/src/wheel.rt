//! What was sent to a partition.

ghost use Rattle.std.specs.Prelude.{◌≡◌, ◌*◌, ◌<◌, ◌≤◌, ℕ, false, set, get_or, IfNone, IfSome};
ghost use Rattle.limits.specs.declared.TheConstants.{MAX_PARTITIONS};
ghost use Rattle.number_sets.specs.Sets.{IsNext};
ghost use Rattle.step_core.specs.declared.wheel.TheConstants.{WHEEL};
ghost use Rattle.step_core.specs.Wheels.{IsWhole, IsNoted, row_of, place_in, due_in, notes_at, is_noted};

use limits::MAX_LAG;
use number_sets::NumberSet;
use std::mem::replace;

/// How many rows a wheel has: what is sent to a partition, from the second that it does next on, is due in fewer seconds than two lags take
/// together, there and back.
pub(crate) const WHEEL: u64 = 2 * MAX_LAG as u64;

/// The parcels that were sent to one partition and that it has not absorbed, by the second in which each is due: a timing wheel. The row of
/// a second is that of its number modulo `WHEEL`, and has a place for each sender, by number. In most places nothing lies, which is seen
/// without a look at the place: each row has the set of those senders of whom something may lie there.
///
/// What a sender sends in seconds that follow one another lies side by side in memory.
#[derive(Drop)]
pub struct Wheel<P> {
    /// After how many seconds a parcel of a sender is due, by number.
    pub(crate) lags: Vec<u32>,
    /// Of each row the senders in whose places something may lie.
    pub(crate) noted: Vec<NumberSet>,
    /// What lies in each place: sender by sender.
    pub(crate) parcels: Vec<P>,
}

/// The row of a second.
fn row_of(second: u64) -> usize
    ensures row { result ≡ row_of second }
    ensures within { result < WHEEL }
{
    (second % WHEEL) as usize
}

/// The index of what lies in the place of a sender in the row of a second.
fn place_in(second: u64, sender: u32) -> usize
    requires { sender < MAX_PARTITIONS }
    ensures place { result ≡ place_in second sender }
    ensures within { result < WHEEL * MAX_PARTITIONS }
{
    sender as usize * WHEEL as usize + row_of(second)
}

impl<P: Drop> Wheel<P> {
    /// The first sender from this number on of whom something may lie in the row of a second.
    pub(crate) fn next_sender(&self, second: u32, from: u32) -> Option<u32>
        requires { IsWhole self.now }
        ensures none { IfNone result ((a : ℕ) → from ≤ a → is_noted self.now second a ≡ false) }
        ensures some { IfSome result (IsNext (notes_at self.now second) from) }
    {
        let notes = &self.noted[row_of(u64::from(second))];
        notes.next(from)
    }

    /// Takes out what lies in the place of a sender in the row of a second, and leaves the parcel with nothing in it there.
    pub(crate) fn take(&mut self, second: u32, sender: u32, nothing: P) -> P
        requires noted { IsNoted nothing self.old }
        requires sender { sender < MAX_PARTITIONS }
        ensures parcel { result ≡ get_or self.old.parcels.items (place_in second sender) nothing }
        ensures parcels { self.new.parcels.items ≡ set self.old.parcels.items (place_in second sender) nothing }
        ensures noted { IsNoted nothing self.new }
        ensures lags { self.new.lags.items ≡ self.old.lags.items }
    {
        let second = u64::from(second);
        let notes = &mut self.noted[row_of(second)];
        notes.remove(sender);
        let place = place_in(second, sender);
        replace(&mut self.parcels[place], nothing)
    }

    /// What a sender sent in a second comes into the row of the second in which it is due.
    pub(crate) fn put(&mut self, second: u32, sender: u32, parcel: P)
        requires whole { IsWhole self.old }
        requires sender { sender < MAX_PARTITIONS }
        ensures noted { (nothing : P) → IsNoted nothing self.old → IsNoted nothing self.new }
        ensures parcels { self.new.parcels.items
            ≡ set self.old.parcels.items (place_in (due_in self.old second sender) sender) parcel }
        ensures lags { self.new.lags.items ≡ self.old.lags.items }
    {
        let lag = self.lags[sender as usize];
        let due = u64::from(second) + u64::from(lag);
        let notes = &mut self.noted[row_of(due)];
        notes.insert(sender);
        let place = place_in(due, sender);
        self.parcels[place] = parcel;
    }
}
