// How a port publishes a second.
ghost use Rattle.std.specs.Prelude.{◌≡◌, ℕ, ◌+◌, ◌<◌, true, []};
ghost use Rattle.cells.specs.Ports.{IsPort, IsFilling, IsSettled, GoesOut, is_taken, is_awaited, handover, degree, waits, still};
ghost use Rattle.cells.specs.Ports.{partition_of, done_of, neighbours_of, borders_of, TakesNone};

use crate::WORDS_APART;
use crate::board::{Board, Handover, Port};
use crate::slots::load_out;
use crate::table::{Exchange, Publishing};
use std::mem::replace;

/// What goes out: what was put, or nothing.
fn take_put<P: Drop>(handover: &mut Handover<P>) -> Option<P>
    requires { is_taken handover.old ≡ true }
    ensures { GoesOut result handover.old × (handover.new ≡ Handover.Awaited) }
{
    match replace(handover, Handover::Awaited) {
        Handover::Put(parcel) => parcel,
        Handover::Taken => None,
        _ => unreachable!(),
    }
}

impl<T: Exchange> Port<T> {
    /// Puts the parcels into the out-slots.
    fn fill(&mut self, board: &Board<T>)
        requires port { IsPort T.right board.now self.old }
        requires all { IsSettled T.right board.now self.old }
        ensures filled { IsFilling T.right board.now self.old self.new }
        ensures empty { self.new.order.items ≡ [] }
    {
        while let Some(k) = self.order.pop() {
            let border = self.borders[k];
            let t = self.done;
            let parcel = take_put(&mut self.handovers[k]);
            load_out(board, &mut self.seat, border, t, parcel);
        }
    }

    /// Ends the second that this port is about to do, for which what each neighbour sent was taken. A neighbour for which nothing was put
    /// is sent no parcel, which has to be right. Once the parcels stand in their slots, one atomic store tells all threads that this
    /// partition has done `done() + 1` seconds.
    pub fn publish(&mut self, board: &Board<T>)
        requires port { IsPort T.right board.now self.old }
        requires all { IsSettled T.right board.now self.old }
        requires last { done_of self.old < u32.MAX }
        ensures port { IsPort T.right board.now self.new }
        ensures done { done_of self.new ≡ done_of self.old + 1 }
        ensures awaited { (k : ℕ) → k < degree self.new → is_awaited (handover self.new k) ≡ true }
        ensures counts { (waits self.new ≡ waits self.old) × (still self.new ≡ waits self.old) }
        ensures taken { TakesNone self.old self.new }
        ensures same { (partition_of self.new ≡ partition_of self.old) × (neighbours_of self.new ≡ neighbours_of self.old)
            × (borders_of self.new ≡ borders_of self.old) }
    {
        self.fill(board);
        board.table.shared.store::<Publishing>(
            &mut self.seat,
            WORDS_APART * self.partition as usize,
            self.done as u64 + 1,
        );
        self.done += 1;
    }
}
