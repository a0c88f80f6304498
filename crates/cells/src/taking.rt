// What a port is asked, what is taken from it and what is put into it.
ghost use Rattle.std.specs.Prelude.{◌≡◌, ◌-◌, ◌<◌, ◌≤◌, true, not, slice_set};
ghost use Rattle.cells.specs.Ports.{IsPort, SameSecond, is_awaited, is_arrived, is_taken, handover, handovers_of, degree, waits, neighbour};
ghost use Rattle.cells.specs.Ports.{neighbours_of, lag_from, run_of, partition_of, done_of, taken_count, TakesNone, TakesOne};

use crate::board::{Board, Handover, Port};
use crate::table::Exchange;
use std::mem::replace;

fn take_arrived<P: Drop>(handover: &mut Handover<P>) -> Option<P>
    requires { is_arrived handover.old ≡ true }
    ensures { (handover.old ≡ Handover.Arrived result) × (handover.new ≡ Handover.Taken) }
{
    match replace(handover, Handover::Taken) {
        Handover::Arrived(parcel) => parcel,
        _ => unreachable!(),
    }
}

/// Whether the neighbour was ready.
fn was_ready<P>(handover: &Handover<P>) -> bool
    ensures { result ≡ not (is_awaited handover.now) }
{
    !matches!(handover, Handover::Awaited)
}

impl<T: Exchange> Port<T> {
    /// The seconds that this partition has done.
    pub fn done(&self) -> u32
        ensures { result ≡ done_of self.now }
    {
        self.done
    }

    /// The partition whose port this is.
    pub fn partition(&self) -> u32
        ensures { result ≡ partition_of self.now }
    {
        self.partition
    }

    /// The neighbours, ascending. Neighbour `k` is the one at place `k`, counted from 0.
    pub fn neighbours(&self) -> &[u32]
        ensures { result.now ≡ neighbours_of self.now }
    {
        self.neighbours.as_slice()
    }

    /// The lag from neighbour `k` to this partition, in seconds.
    pub fn lag(&self, k: usize) -> u32
        requires { k < degree self.now }
        ensures { result ≡ lag_from self.now k }
    {
        self.borders[k].lag
    }

    /// Whether neighbour `k` was ready in this second (`false` where there is no such neighbour). It stays so until this port publishes.
    pub fn is_ready(&self, k: usize) -> bool
        ensures { result ≡ not (is_awaited (handover self.now k)) }
    {
        match self.handovers.get(k) {
            None => false,
            Some(handover) => was_ready(handover),
        }
    }

    /// The parcel that neighbour `k` sent to this partition in second `done() - lag`, or `None` where it sent none in it. In this second
    /// the neighbour was ready, and what it sent was not taken yet. So of each neighbour what it sent in the seconds 0, 1, 2 and so on is
    /// taken in turn, each once.
    pub fn take(&mut self, board: &Board<T>, k: usize) -> Option<T::Parcel>
        requires port { IsPort T.right board.now self.old }
        requires neighbour { k < degree self.old }
        requires arrived { is_arrived (handover self.old k) ≡ true }
        ensures port { IsPort T.right board.now self.new }
        ensures same { SameSecond self.old self.new }
        ensures right { (lag_from self.old k ≤ done_of self.old)
            × T.right (run_of board.now) (neighbour self.old k) (partition_of self.old) (done_of self.old - lag_from self.old k) result }
        ensures taken { (taken_count self.old k ≡ done_of self.old - lag_from self.old k) × TakesOne self.old self.new k }
        ensures held { handovers_of self.new ≡ slice_set (handovers_of self.old) k Handover.Taken }
        ensures counts { waits self.new ≡ waits self.old }
    {
        take_arrived(&mut self.handovers[k])
    }

    /// Keeps the parcel of second `done()` for neighbour `k`, or that none is sent to it, until this second is published. In this second
    /// the neighbour was ready and what it sent was taken. A second call replaces what the first one put.
    pub fn put(&mut self, board: &Board<T>, k: usize, parcel: Option<T::Parcel>)
        requires port { IsPort T.right board.now self.old }
        requires neighbour { k < degree self.old }
        requires taken { is_taken (handover self.old k) ≡ true }
        requires right { T.right (run_of board.now) (partition_of self.old) (neighbour self.old k) (done_of self.old) parcel }
        ensures port { IsPort T.right board.now self.new }
        ensures same { SameSecond self.old self.new }
        ensures held { handovers_of self.new ≡ slice_set (handovers_of self.old) k (Handover.Put parcel) }
        ensures taken { TakesNone self.old self.new }
        ensures counts { waits self.new ≡ waits self.old }
    {
        self.handovers[k] = Handover::Put(parcel);
    }
}
