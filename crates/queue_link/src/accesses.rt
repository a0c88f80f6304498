//! What comes to a link, what is taken from it, and what it tells of itself.

ghost use Rattle.std.specs.{Option.option_copied, Prelude.◌≡◌};
ghost use Rattle.std.specs.Prelude.{◌+◌, ◌^◌, ◌<◌, ◌≤◌, ◌↔◌, [], ◌∷◌, ◌++◌, length, max, OnOk, IsTrue};
ghost use Rattle.limits.specs.declared.TheConstants.{LAST_SECOND};
ghost use Rattle.traffic.specs.{Lists.on_front, Moves.at_second, declared.stage.Stage.TheVariants.Queue};
ghost use Rattle.traffic.specs.declared.{stage.Stage.TheVariants.Wait, stage.Stage.TheVariants.Bay, world.Row.Row};
ghost use Rattle.queue_link.specs.Numbers.{AreNumbers};
ghost use Rattle.queue_link.specs.Links.{fresh, row_on, behind_front, all_rows, first_row, front_vehicle, front_second, vehicle_at};

use crate::numbers::LinkNumbers;
use crate::sleeps::earliest;
use crate::state::LinkState;
use crate::turns::vehicle_of;
use fixed_flow::Credit;
use std::alloc::{AllocError, Global};
use std::collections::VecDeque;
use traffic::{Row, Stage, Vehicle};

/// The vehicle at a place of these rows.
fn vehicle_in(rows: &VecDeque<Row>, place: usize) -> Option<&Vehicle>
    ensures { option_copied result ≡ vehicle_at place rows.now.items }
{
    match rows.get(place) {
        None => None,
        Some(row) => Some(&row.vehicle),
    }
}

/// The vehicle at a place of a bay.
fn vehicle_in_bay(rows: &[Row], place: usize) -> Option<&Vehicle>
    ensures { option_copied result ≡ vehicle_at place rows.now }
{
    if place < rows.len() {
        Some(&rows[place].vehicle)
    } else {
        None
    }
}

/// A row comes to the end of a list. The first one takes one place, and a list that is full then grows to twice its length: on most links
/// there are one or two vehicles, so that all lists of a network stay few in memory.
pub(crate) fn push_row(rows: &mut VecDeque<Row>, row: Row) -> Result<(), AllocError>
    ensures { OnOk result (rows.new.items ≡ rows.old.items ++ row ∷ []) }
{
    let count = rows.len();
    if count == rows.capacity() {
        rows.reserve_exact(count.max(1))?;
    }
    rows.push_back(row)?;
    Ok(())
}

impl LinkState {
    /// A link of these numbers at the start of a day.
    pub fn new(alloc: Global, numbers: LinkNumbers) -> LinkState
        requires { AreNumbers numbers }
        ensures { result ≡ fresh numbers }
    {
        LinkState {
            numbers,
            credit: Credit::start(),
            raised: 0,
            queue: VecDeque::new(alloc),
            buffer: VecDeque::new(alloc),
            wait: VecDeque::new(alloc),
            bay: Vec::new(alloc),
            bay_due: None,
        }
    }

    /// The numbers of the link.
    pub fn numbers(&self) -> LinkNumbers
        ensures value { result ≡ self.now.numbers }
        ensures near { AreNumbers result }
    {
        self.numbers
    }

    /// A vehicle comes over the node in this second, to the end of the queue; it may leave once it has driven along the link.
    ///
    /// # Errors
    ///
    /// `AllocError`: there is no memory for the row. The vehicle is then lost.
    pub fn accept(&mut self, second: u32, vehicle: Vehicle) -> Result<(), AllocError>
        requires { second < LAST_SECOND }
        ensures { OnOk result (self.new ≡ record self.old {
          lists = record self.old.lists {
            queue = self.old.lists.queue ++ row_on self.old.numbers.link Queue (second + self.old.numbers.seconds) vehicle ∷ [];
          };
        }) }
    {
        let row = Row {
            vehicle,
            link: self.numbers.link,
            stage: Stage::Queue,
            second: second + self.numbers.seconds,
        };
        push_row(&mut self.queue, row)?;
        Ok(())
    }

    /// A vehicle starts on the link, at the end of the wait list.
    ///
    /// # Errors
    ///
    /// `AllocError`: there is no memory for the row. The vehicle is then lost.
    pub fn depart(&mut self, vehicle: Vehicle) -> Result<(), AllocError>
        ensures { OnOk result (self.new ≡ record self.old {
          lists = record self.old.lists {
            wait = self.old.lists.wait ++ row_on self.old.numbers.link Wait 0 vehicle ∷ [];
          };
        }) }
    {
        let row = Row {
            vehicle,
            link: self.numbers.link,
            stage: Stage::Wait,
            second: 0,
        };
        push_row(&mut self.wait, row)?;
        Ok(())
    }

    /// A vehicle that was served stands at the end of the bay until this second.
    ///
    /// # Errors
    ///
    /// `AllocError`: there is no memory for the row. The vehicle is then lost.
    pub fn park(&mut self, vehicle: Vehicle, until: u32) -> Result<(), AllocError>
        ensures { OnOk result (self.new ≡ record self.old {
          lists = record self.old.lists {
            bay = self.old.lists.bay ++ row_on self.old.numbers.link Bay until vehicle ∷ [];
          };
        }) }
    {
        self.bay.push(Row {
            vehicle,
            link: self.numbers.link,
            stage: Stage::Bay,
            second: until,
        })?;
        self.bay_due = earliest(self.bay_due, Some(until));
        Ok(())
    }

    /// The row at the front of the buffer, and `None` exactly where the buffer is empty.
    pub fn front_row(&self) -> Option<&Row>
        ensures { option_copied result ≡ first_row self.now.lists.buffer }
    {
        self.buffer.front()
    }

    /// Since when it has been at the front, and `None` exactly where the buffer is empty.
    pub fn first_since(&self) -> Option<u32>
        ensures { result ≡ front_second self.now.lists.buffer }
    {
        match self.buffer.front() {
            None => None,
            Some(row) => Some(row.second),
        }
    }

    /// Takes the front of the buffer out, as it stands there. Whoever becomes front is it since this second.
    pub fn take_front(&mut self, second: u32) -> Row
        requires { 0 < length self.old.lists.buffer }
        ensures front { first_row self.old.lists.buffer ≡ Some result }
        ensures rest { self.new
            ≡ record self.old { lists = record self.old.lists { buffer = behind_front second self.old.lists.buffer } } }
    {
        let Some(row) = self.buffer.pop_front() else {
            unreachable!()
        };
        self.mark_first(second);
        row
    }

    /// Takes the vehicle at the front of the buffer out. Whoever becomes front is it since this second.
    pub fn hand_over(&mut self, second: u32) -> Vehicle
        requires { 0 < length self.old.lists.buffer }
        ensures front { front_vehicle self.old.lists.buffer ≡ Some result }
        ensures rest { self.new
            ≡ record self.old { lists = record self.old.lists { buffer = behind_front second self.old.lists.buffer } } }
    {
        let row = self.take_front(second);
        vehicle_of(row)
    }

    /// The front of the buffer, where there is one, is first since this second, as a red light makes it.
    pub fn mark_first(&mut self, second: u32)
        ensures { self.new ≡ record self.old {
          lists = record self.old.lists {
            buffer = on_front (at_second second) self.old.lists.buffer;
          };
        } }
    {
        if !self.buffer.is_empty() {
            self.buffer[0].second = second;
        }
    }

    /// Makes up the marks of red seconds that were left out, of which the last is this one: the front of the buffer, where there is
    /// one, is first since the later of that second and the one that it bears.
    pub fn catch_up(&mut self, last_red: u32)
        ensures { self.new ≡ record self.old {
          lists = record self.old.lists {
            buffer = on_front (λ (r : Row). at_second (max r.second last_red) r) self.old.lists.buffer;
          };
        } }
    {
        if !self.buffer.is_empty() {
            let since = self.buffer[0].second;
            self.buffer[0].second = since.max(last_red);
        }
    }

    /// How many vehicles are in the queue.
    pub fn queued(&self) -> usize
        ensures { result ≡ length self.now.lists.queue }
    {
        self.queue.len()
    }

    /// How many vehicles are in the buffer.
    pub fn buffered(&self) -> usize
        ensures { result ≡ length self.now.lists.buffer }
    {
        self.buffer.len()
    }

    /// Whether no vehicle is in the queue, on the wait list or in the bay.
    pub fn idle(&self) -> bool
        ensures { IsTrue result ↔ ((self.now.lists.queue ≡ []) × (self.now.lists.wait ≡ []) × (self.now.lists.bay ≡ [])) }
    {
        self.queue.is_empty() && self.wait.is_empty() && self.bay.is_empty()
    }

    /// The vehicle at a place, counted from 0 through the queue, the buffer, the wait list and the bay, one after the other; `None`
    /// exactly where there are not so many.
    pub fn at(&self, place: usize) -> Option<&Vehicle>
        ensures { option_copied result ≡ vehicle_at place (all_rows self.now.lists) }
    {
        let queued = self.queue.len();
        if place < queued {
            return vehicle_in(&self.queue, place);
        }
        let behind = place - queued;
        let buffered = self.buffer.len();
        if behind < buffered {
            return vehicle_in(&self.buffer, behind);
        }
        let waiting = behind - buffered;
        let starting = self.wait.len();
        if waiting < starting {
            return vehicle_in(&self.wait, waiting);
        }
        vehicle_in_bay(&self.bay, waiting - starting)
    }
}
