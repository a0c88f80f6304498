//! What comes of the vehicle at the front of a queue or of a wait list.

ghost use Rattle.std.specs.Prelude.{◌≡◌, length};
ghost use Rattle.queue_link.specs.Turns.{fate_of, queue_fate, wait_fate};

use crate::numbers::LinkNumbers;
use crate::state::LinkState;
use fixed_flow::Credit;
use traffic::Vehicle;
use vehicles::{calls_on, is_last};

/// What comes of a vehicle at the front.
#[derive(Clone, Copy, Debug, PartialEq, Eq)]
pub enum Fate {
    /// It is served at a stop on the link.
    Stops,
    /// It is at the end of its route.
    Arrives,
    /// It pays and goes into the buffer.
    Passes,
    /// It has to wait.
    Stays,
}

/// What comes of a vehicle at the front, with so many rows in the buffer.
fn fate_of(numbers: &LinkNumbers, buffered: usize, credit: &Credit, vehicle: &Vehicle) -> Fate
    ensures { result ≡ fate_of numbers.now buffered credit.now vehicle.now }
{
    if calls_on(numbers.link, vehicle) {
        return Fate::Stops;
    }
    if is_last(vehicle) {
        return Fate::Arrives;
    }
    if buffered < numbers.room as usize && credit.can_pass() {
        return Fate::Passes;
    }
    Fate::Stays
}

impl LinkState {
    /// What comes of the front of the queue in this second.
    pub(crate) fn queue_fate(&self, second: u32) -> Fate
        ensures { result
            ≡ queue_fate self.now.numbers second (length self.now.lists.buffer) self.now.lists.credit self.now.lists.queue }
    {
        match self.queue.front() {
            None => Fate::Stays,
            Some(row) => {
                if second < row.second {
                    return Fate::Stays;
                }
                fate_of(&self.numbers, self.buffer.len(), &self.credit, &row.vehicle)
            }
        }
    }

    /// What comes of the front of the wait list.
    pub(crate) fn wait_fate(&self) -> Fate
        ensures { result ≡ wait_fate self.now.numbers (length self.now.lists.buffer) self.now.lists.credit self.now.lists.wait }
    {
        match self.wait.front() {
            None => Fate::Stays,
            Some(row) => fate_of(&self.numbers, self.buffer.len(), &self.credit, &row.vehicle),
        }
    }
}
