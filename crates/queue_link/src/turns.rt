//! Steps 3 and 4 of a link's second: the queue, and then the wait list, let their fronts go.

ghost use Rattle.std.specs.Prelude.{◌≡◌, ◌≢◌, ◌+◌, ◌-◌, ◌<◌, ◌≤◌, List, [], ◌∷◌, ◌++◌, length};
ghost use Rattle.std.specs.Prelude.{OnOk, IfOk, IfNone};
ghost use Rattle.fixed_flow.specs.declared.TheConstants.{VEHICLE_COST};
ghost use Rattle.rows.specs.declared.settings.Dwelling.{Dwelling};
ghost use Rattle.traffic.specs.{Links.buffered, declared.world.Waiter.Waiter};
ghost use Rattle.queue_link.specs.{Turns.goes_on, Turns.LeadsTo, Turns.queue_fate, Turns.wait_fate, declared.fates.Fate.TheVariants.Stays};

use crate::accesses::push_row;
use crate::fates::Fate;
use crate::state::LinkState;
use std::alloc::AllocError;
use traffic::{Occurrence, Row, Stage, Vehicle};
use vehicles::{push_arrives, push_starts};

/// How far a link's second goes before its caller has to act.
#[derive(Drop)]
pub enum Turn {
    /// This vehicle is to be served at its next call, which lies on the link; it is on no list until it is parked.
    Stop(Vehicle),
    /// This vehicle has arrived at the end of its route.
    Arrive(Vehicle),
    /// Nothing more moves in this second.
    Done,
}

/// The row at the end of a buffer of `b` rows.
fn buffered(second: u32, link: u32, b: usize, row: Row) -> Row
    ensures { result ≡ buffered second link b row }
{
    let mut after = row;
    after.vehicle.started = true;
    after.link = link;
    after.stage = Stage::Buffer;
    after.second = if b == 0 { second } else { 0 };
    after
}

/// The vehicle of a row.
pub(crate) fn vehicle_of(row: Row) -> Vehicle
    ensures { result ≡ row.vehicle }
{
    let Row {
        vehicle,
        link: _link,
        stage: _stage,
        second: _second,
    } = row;
    vehicle
}

impl LinkState {
    /// A row pays, and stands last in the buffer.
    fn let_pass(&mut self, second: u32, row: Row) -> Result<(), AllocError>
        requires { VEHICLE_COST ≤ self.old.lists.credit }
        ensures { OnOk result (self.new ≡ record self.old {
          lists = record self.old.lists {
            buffer = self.old.lists.buffer ++ buffered second self.old.numbers.link (length self.old.lists.buffer) row ∷ [];
            credit = self.old.lists.credit - VEHICLE_COST;
          };
        }) }
    {
        let after = buffered(second, self.numbers.link, self.buffer.len(), row);
        push_row(&mut self.buffer, after)?;
        self.credit.pay();
        Ok(())
    }

    /// The front of the queue, of which this comes, leaves it; answers why the link halts, if it does.
    fn leave_queue(
        &mut self,
        second: u32,
        fate: Fate,
        said: &mut Vec<Occurrence>,
    ) -> Result<Option<Turn>, AllocError>
        requires is { let L = self.old.lists in queue_fate self.old.numbers second (length L.buffer) L.credit L.queue ≡ fate }
        requires goes { fate ≢ Stays }
        ensures leads { (dwell : Dwelling) (ws : List Waiter) → IfOk result (λ left.
            LeadsTo self.old.numbers dwell ws second self.old.lists said.old.items left self.new.lists said.new.items) }
        ensures less { OnOk result (length self.new.lists.queue < length self.old.lists.queue) }
        ensures same { OnOk result (self.new ≡ record self.old { lists = self.new.lists }) }
    {
        let Some(row) = self.queue.pop_front() else {
            unreachable!()
        };
        match fate {
            Fate::Stops => Ok(Some(Turn::Stop(vehicle_of(row)))),
            Fate::Arrives => {
                push_arrives(&row, said)?;
                Ok(Some(Turn::Arrive(vehicle_of(row))))
            }
            Fate::Passes => {
                self.let_pass(second, row)?;
                Ok(None)
            }
            Fate::Stays => unreachable!(),
        }
    }

    /// Step 3: while the second of the front of the queue has come, it leaves, if it can.
    fn turn_queue(
        &mut self,
        second: u32,
        said: &mut Vec<Occurrence>,
    ) -> Result<Option<Turn>, AllocError>
        ensures leads { (dwell : Dwelling) (ws : List Waiter) → IfOk result (λ left.
            LeadsTo self.old.numbers dwell ws second self.old.lists said.old.items left self.new.lists said.new.items) }
        ensures rests { IfOk result (λ left. IfNone left (
            queue_fate self.new.numbers second (length self.new.lists.buffer) self.new.lists.credit self.new.lists.queue ≡ Stays)) }
        ensures same { OnOk result (self.new ≡ record self.old { lists = self.new.lists }) }
    {
        'queue: loop {
            let fate = self.queue_fate(second);
            if let Fate::Stays = fate {
                return Ok(None);
            }
            match self.leave_queue(second, fate, said)? {
                None => {}
                Some(turn) => return Ok(Some(turn)),
            }
        }
    }

    /// The front of the wait list, of which this comes, leaves it; answers why the link halts, if it does.
    fn leave_wait(
        &mut self,
        second: u32,
        fate: Fate,
        said: &mut Vec<Occurrence>,
    ) -> Result<Option<Turn>, AllocError>
        requires is { wait_fate self.old.numbers (length self.old.lists.buffer) self.old.lists.credit self.old.lists.wait ≡ fate }
        requires goes { fate ≢ Stays }
        requires rests { let L = self.old.lists in queue_fate self.old.numbers second (length L.buffer) L.credit L.queue ≡ Stays }
        ensures leads { (dwell : Dwelling) (ws : List Waiter) → IfOk result (λ left.
            LeadsTo self.old.numbers dwell ws second self.old.lists said.old.items left self.new.lists said.new.items) }
        ensures rests_on { IfOk result (λ left. IfNone left (
            queue_fate self.new.numbers second (length self.new.lists.buffer) self.new.lists.credit self.new.lists.queue ≡ Stays)) }
        ensures less { OnOk result (length self.new.lists.wait < length self.old.lists.wait) }
        ensures same { OnOk result (self.new ≡ record self.old { lists = self.new.lists }) }
    {
        let Some(row) = self.wait.pop_front() else {
            unreachable!()
        };
        push_starts(&row, said)?;
        match fate {
            Fate::Stops => Ok(Some(Turn::Stop(vehicle_of(row)))),
            Fate::Arrives => {
                push_arrives(&row, said)?;
                Ok(Some(Turn::Arrive(vehicle_of(row))))
            }
            Fate::Passes => {
                self.let_pass(second, row)?;
                Ok(None)
            }
            Fate::Stays => unreachable!(),
        }
    }

    /// Step 4: the front of the wait list leaves, while it can.
    fn turn_wait(&mut self, second: u32, said: &mut Vec<Occurrence>) -> Result<Turn, AllocError>
        requires { queue_fate self.old.numbers second (length self.old.lists.buffer) self.old.lists.credit self.old.lists.queue ≡ Stays }
        ensures goes_on { (dwell : Dwelling) (ws : List Waiter) → IfOk result (λ turn.
            goes_on self.old.numbers dwell ws second self.old.lists said.old.items
            ≡ record { turn = turn; lists = self.new.lists; told = said.new.items }) }
        ensures same { OnOk result (self.new ≡ record self.old { lists = self.new.lists }) }
    {
        'wait: loop {
            let fate = self.wait_fate();
            if let Fate::Stays = fate {
                return Ok(Turn::Done);
            }
            match self.leave_wait(second, fate, said)? {
                None => {}
                Some(turn) => return Ok(turn),
            }
        }
    }

    /// Goes on with a second that was begun: the fronts of the queue and then of the wait list leave while they can, until one of
    /// them halts. Appends what that tells, of an arrival all. A vehicle that stops is served by the caller, who parks it and calls again.
    ///
    /// The answer, the lists and what is told are those of the moves that `traffic` says are left, whoever waits at the link's stops.
    ///
    /// # Errors
    ///
    /// `AllocError`: there is no memory for a row or an event. The link is then of no use.
    pub fn turn(&mut self, second: u32, said: &mut Vec<Occurrence>) -> Result<Turn, AllocError>
        requires { self.old.raised ≡ second + 1 }
        ensures goes_on { (dwell : Dwelling) (ws : List Waiter) → IfOk result (λ turn.
            goes_on self.old.numbers dwell ws second self.old.lists said.old.items
            ≡ record { turn = turn; lists = self.new.lists; told = said.new.items }) }
        ensures same { OnOk result (self.new ≡ record self.old { lists = self.new.lists }) }
    {
        match self.turn_queue(second, said)? {
            Some(turn) => Ok(turn),
            None => {
                let turn = self.turn_wait(second, said)?;
                Ok(turn)
            }
        }
    }
}
