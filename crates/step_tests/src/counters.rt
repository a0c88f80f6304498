//! A stand-in for a partition.

ghost use Rattle.std.specs.Prelude.{◌≡◌, ℕ, ◌<◌, ◌≤◌, length, set, IfNone, IfSome, IfOk};
ghost use Rattle.step_core.specs.{Nets.border_at, Views.in_place, Views.AreEmpty, Views.IsNextPlace, Views.HasSent};
ghost use Rattle.step_tests.specs.Rows.{net_of, neighbours, number_of};
ghost use Rattle.step_tests.specs.Counters.{view_of, IsAsBefore, Counts, IsSpent, is_number};

use crate::rows::{Row, neighbours_of, number};
use std::alloc::{AllocError, Global};
use step_core::{BorderList, Part};

/// A partition that sends numbers to its neighbours in some seconds, and counts those that it gets. In its places 0 is nothing.
#[derive(Drop)]
pub(crate) struct Counter {
    pub(crate) number: u32,
    pub(crate) seconds: u32,
    /// Whether it found no memory in a second.
    pub(crate) spent: bool,
    /// The numbers that it got.
    pub(crate) heard: u64,
    /// Those of them that were not the right ones.
    pub(crate) wrong: u64,
    pub(crate) neighbours: BorderList,
    pub(crate) inbox: Vec<u64>,
    pub(crate) outbox: Vec<u64>,
}

/// Whether a partition is the one that finds no memory.
fn is_poor(run: &Row, number: u32) -> bool {
    match run.poor {
        Some(poor) => poor == number,
        None => false,
    }
}

/// So many empty places.
fn places(alloc: Global, count: usize) -> Result<Vec<u64>, AllocError>
    ensures { IfOk result (λ v. AreEmpty 0 count v.items) }
{
    let mut places = Vec::with_capacity(alloc, count)?;
    for _place in 0..count {
        places.push(0)?;
    }
    Ok(places)
}

/// The first of these places from this one on in which a number lies.
fn next_number(places: &[u64], from: usize) -> Option<usize>
    ensures none { IfNone result ((k : ℕ) → from ≤ k → in_place 0 places.now k ≡ 0) }
    ensures some { IfSome result (IsNextPlace 0 places.now from) }
{
    for place in from..places.len() {
        if places[place] != 0 {
            return Some(place);
        }
    }
    None
}

impl Counter {
    /// Counts what lies in its places, and empties them.
    fn hear(&mut self)
        ensures inbox { AreEmpty 0 (length self.old.inbox.items) self.new.inbox.items }
        ensures same { IsAsBefore self.old self.new }
        ensures outbox { self.new.outbox.items ≡ self.old.outbox.items }
    {
        for place in 0..self.inbox.len() {
            self.hear_from(place);
        }
    }

    /// Counts what lies in the place of a neighbour, and empties it.
    fn hear_from(&mut self, place: usize)
        requires { place < length self.old.inbox.items }
        ensures inbox { self.new.inbox.items ≡ set self.old.inbox.items place 0 }
        ensures same { IsAsBefore self.old self.new }
        ensures outbox { self.new.outbox.items ≡ self.old.outbox.items }
    {
        let parcel = self.inbox[place];
        self.inbox[place] = 0;
        self.count(place, parcel);
    }

    /// Counts what came from a neighbour, if it is a number. It is right where it is that of the lag ago.
    fn count(&mut self, place: usize, parcel: u64)
        ensures inbox { self.new.inbox.items ≡ self.old.inbox.items }
        ensures outbox { self.new.outbox.items ≡ self.old.outbox.items }
        ensures same { IsAsBefore self.old self.new }
    {
        if parcel == 0 {
            return;
        }
        let wrong = u64::from(!self.is_right(place, parcel));
        self.heard = self.heard.saturating_add(1);
        self.wrong = self.wrong.saturating_add(wrong);
    }

    fn is_right(&self, place: usize, parcel: u64) -> bool {
        if place >= self.neighbours.rows.len() {
            return false;
        }
        let border = self.neighbours.rows[place];
        match self.seconds.checked_sub(border.lag) {
            Some(second) => {
                border.neighbour < 64
                    && self.number < 64
                    && parcel == number(border.neighbour, self.number, second)
            }
            None => false,
        }
    }

    /// What goes to each neighbour.
    fn send(&mut self)
        requires number { self.old.number < 64 }
        requires few { (k : ℕ) → k < length self.old.neighbours → (border_at self.old.neighbours k).neighbour < 64 }
        requires places { length self.old.outbox.items ≡ length self.old.neighbours }
        ensures same { IsAsBefore self.old self.new }
        ensures inbox { self.new.inbox.items ≡ self.old.inbox.items }
        ensures places { length self.new.outbox.items ≡ length self.old.outbox.items }
        ensures sent { HasSent 0 is_number self.old.number self.old.seconds self.old.neighbours self.new.outbox.items }
    {
        for place in 0..self.neighbours.len() {
            self.send_to(place);
        }
    }

    /// What goes to one of them.
    fn send_to(&mut self, place: usize)
        requires number { self.old.number < 64 }
        requires there { place < length self.old.neighbours }
        requires few { (border_at self.old.neighbours place).neighbour < 64 }
        requires places { length self.old.outbox.items ≡ length self.old.neighbours }
        ensures same { IsAsBefore self.old self.new }
        ensures inbox { self.new.inbox.items ≡ self.old.inbox.items }
        ensures outbox { self.new.outbox.items ≡ set self.old.outbox.items place
            (number_of self.old.number (border_at self.old.neighbours place).neighbour self.old.seconds) }
    {
        let to = self.neighbours.rows[place].neighbour;
        let parcel = number(self.number, to, self.seconds);
        self.outbox[place] = parcel;
    }
}

impl Part for Counter {
    type Run = Row;

    type Parcel = u64;

    ghost nothing = { 0 };

    ghost net = { λ r. net_of r.count r.longest r.end };

    ghost borders = { λ r p. neighbours r.count r.longest p };

    ghost see = { view_of };

    ghost stands = { Counts };

    ghost spent = { IsSpent };

    ghost right = { λ _. is_number };

    fn nothing() -> u64 {
        0
    }

    fn is_nothing(parcel: &u64) -> bool {
        *parcel == 0
    }

    fn count(run: &Row) -> u32 {
        run.count
    }

    fn end(run: &Row) -> u32 {
        run.end
    }

    fn borders(alloc: Global, run: &Row, number: u32) -> Result<BorderList, AllocError> {
        neighbours_of(alloc, run, number)
    }

    fn start(alloc: Global, run: &Row, number: u32) -> Result<Counter, AllocError> {
        let neighbours = neighbours_of(alloc, run, number)?;
        let count = neighbours.len();
        Ok(Counter {
            number,
            seconds: 0,
            spent: false,
            heard: 0,
            wrong: 0,
            neighbours,
            inbox: places(alloc, count)?,
            outbox: places(alloc, count)?,
        })
    }

    #[tactic(auto, using(crate::proofs::Counting::stays))]
    fn absorb(&mut self, place: usize, parcel: u64) {
        self.inbox[place] = parcel;
    }

    #[tactic(auto, using(crate::proofs::Counting::stays, crate::proofs::Counting::few_in))]
    fn second(&mut self, run: &Row) -> Result<(), AllocError> {
        if self.seconds == 50 && is_poor(run, self.number) {
            self.spent = true;
            return Err(AllocError);
        }
        self.hear();
        self.send();
        self.seconds += 1;
        Ok(())
    }

    fn next_parcel(&self, from: usize) -> Option<usize> {
        next_number(&self.outbox, from)
    }

    #[tactic(auto, using(crate::proofs::Counting::stays))]
    fn outbox(&mut self, place: usize) -> u64 {
        let parcel = self.outbox[place];
        self.outbox[place] = 0;
        parcel
    }
}
