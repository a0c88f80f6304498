//! What a partition takes from its neighbours before a second, and gives to them after it.

ghost use Rattle.std.specs.Prelude.{◌≡◌, ℕ, ◌+◌, ◌<◌, length, set, IfNone, IfSome, OnOk, OnErr};
ghost use Rattle.limits.specs.declared.TheConstants.{MAX_PARTITIONS};
ghost use Rattle.step_core.specs.{Cores.done_at, Exchanges.neighbour_at, Exchanges.lag_at, Exchanges.AreListed};
ghost use Rattle.step_core.specs.Exchanges.{HasTakenIn, AreSent, HaveRoom, IsReady, HasTaken, HasExchanged, IsFirstLate};
ghost use Rattle.step_core.specs.Views.{in_place, AreEmpty, IsAt, Stays};
ghost use Rattle.step_core.specs.Wheels.{IsNoted, due_in, IsPut};

use crate::borders::place_of;
use crate::part::{Border, Part};
use crate::wheel::Wheel;
use std::alloc::AllocError;

/// A neighbour that is too far behind, and how many seconds it has done.
#[derive(Clone, Copy, Debug, PartialEq, Eq)]
pub(crate) struct Late {
    pub(crate) neighbour: u32,
    pub(crate) published: u32,
}

/// The first neighbour that is behind a partition, which is about to do this second, by the lag or more.
pub(crate) fn first_late(borders: &[Border], second: u32, done: &[u32]) -> Option<Late>
    requires { (k : ℕ) → k < length borders.now → neighbour_at borders.now k < length done.now }
    ensures none { IfNone result ((k : ℕ) → k < length borders.now
        → second < done_at done.now (neighbour_at borders.now k) + lag_at borders.now k) }
    ensures some { IfSome result (IsFirstLate borders.now second done.now) }
{
    for border in borders {
        let published = done[border.neighbour as usize];
        if u64::from(published) + u64::from(border.lag) <= u64::from(second) {
            return Some(Late {
                neighbour: border.neighbour,
                published,
            });
        }
    }
    None
}

/// A partition counts in what a neighbour sent, where something is in it.
fn absorb_some<T: Part>(part: &mut T, place: usize, parcel: T::Parcel)
    requires there { place < length (T.see part.old).inbox }
    requires empty { in_place T.nothing (T.see part.old).inbox place ≡ T.nothing }
    ensures inbox { (T.see part.new).inbox ≡ set (T.see part.old).inbox place parcel }
    ensures outbox { (T.see part.new).outbox ≡ (T.see part.old).outbox }
    ensures number { (T.see part.new).number ≡ (T.see part.old).number }
    ensures seconds { (T.see part.new).seconds ≡ (T.see part.old).seconds }
    ensures stands { Stays T.stands part.old part.new }
{
    if T::is_nothing(&parcel) {
        return;
    }
    part.absorb(place, parcel);
}

/// A partition absorbs what lies in the row of a second in its wheel. Only those places are looked at in which something may lie.
fn hear<T: Part>(borders: &[Border], second: u32, part: &mut T, wheel: &mut Wheel<T::Parcel>)
    requires noted { IsNoted T.nothing wheel.old }
    requires listed { AreListed borders.now }
    requires empty { AreEmpty T.nothing (length borders.now) (T.see part.old).inbox }
    ensures { HasTakenIn T.nothing T.see T.stands second borders.now wheel.old wheel.new part.old part.new }
{
    let mut from = 0;
    'senders: while let Some(sender) = wheel.next_sender(second, from) {
        let parcel = wheel.take(second, sender, T::nothing());
        if let Some(place) = place_of(borders, sender) {
            absorb_some(part, place, parcel);
        }
        from = sender + 1;
    }
}

/// A parcel of partition `number` goes into the wheel of a neighbour.
fn send_to<T: Part>(number: u32, second: u32, parcel: T::Parcel, wheel: &mut Wheel<T::Parcel>)
    requires few { number < MAX_PARTITIONS }
    requires noted { IsNoted T.nothing wheel.old }
    ensures { IsPut T.nothing (due_in wheel.old second number) number parcel wheel.old wheel.new }
{
    wheel.put(second, number, parcel);
}

/// What partition `number` sends to its neighbours goes into their wheels. Only those parcels are looked at in which something may be.
fn send<T: Part>(
    borders: &[Border],
    number: u32,
    second: u32,
    part: &mut T,
    wheels: &mut [Wheel<T::Parcel>],
)
    requires have { HaveRoom T.nothing second number borders.now wheels.old }
    requires places { length (T.see part.old).outbox ≡ length borders.now }
    ensures { AreSent T.nothing T.see T.stands second number borders.now (length borders.now) wheels.old wheels.new part.old part.new }
{
    let mut from = 0;
    'parcels: while let Some(place) = part.next_parcel(from) {
        let parcel = part.outbox(place);
        let to = borders[place].neighbour as usize;
        send_to::<T>(number, second, parcel, &mut wheels[to]);
        from = place + 1;
    }
}

/// Partition `number` absorbs what is due, does the second, and sends. It takes no memory but what the second takes.
///
/// # Errors
///
/// `AllocError`: there is no memory for the second. What was absorbed is gone then, and nothing was sent.
pub(crate) fn do_second<T: Part>(
    run: &T::Run,
    borders: &[Border],
    number: u32,
    second: u32,
    part: &mut T,
    wheels: &mut [Wheel<T::Parcel>],
) -> Result<(), AllocError>
    requires ready { IsReady T.nothing (T.right run.now) second number borders.now wheels.old }
    requires rows { borders.now ≡ T.borders run.now number }
    requires before_end { second < (T.net run.now).end }
    requires at { IsAt T.nothing T.see (T.stands run.now) number second (length borders.now) part.old }
    ensures at { OnOk result (IsAt T.nothing T.see (T.stands run.now) number (second + 1) (length borders.now) part.new) }
    ensures exchanged { OnOk result (HasExchanged T.nothing (T.right run.now) second number borders.now wheels.old wheels.new) }
    ensures taken { OnErr result (HasTaken T.nothing second number borders.now wheels.old wheels.new) }
    ensures spent { OnErr result (T.spent part.new) }
{
    hear(borders, second, part, &mut wheels[number as usize]);
    if part.second(run).is_err() {
        return Err(AllocError);
    }
    send(borders, number, second, part, wheels);
    Ok(())
}
