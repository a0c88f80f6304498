//! When a link that has nothing to do has to be woken.

ghost use Rattle.std.specs.Prelude.{◌≡◌, ◌<◌, ◌≤◌, length};
ghost use Rattle.limits.specs.declared.TheConstants.{LAST_SECOND};
ghost use Rattle.rows.specs.declared.settings.Dwelling.{Dwelling};
ghost use Rattle.law_sleeping.specs.Quiet.{held_due, queue_due, wait_due, has_come, is_blocked};
ghost use Rattle.queue_link.specs.{Numbers.AreNumbers, Numbers.rules_of, Numbers.no_dwelling, Waking.bay_due, Waking.due_of};
ghost use Rattle.calendar.specs.Waking.{earliest};

use crate::numbers::LinkNumbers;
use crate::state::LinkState;
use fixed_flow::{Credit, VEHICLE_COST};
use traffic::Row;

/// The earlier of two seconds, where there is any.
pub(crate) fn earliest(second: Option<u32>, other: Option<u32>) -> Option<u32>
    ensures { result ≡ earliest second other }
{
    match (second, other) {
        (None, other) => other,
        (Some(second), None) => Some(second),
        (Some(second), Some(other)) => Some(second.min(other)),
    }
}

/// The least second of the rows of a bay.
#[tactic(auto, unfolding(crate::specs::Waking::bay_due))]
pub(crate) fn bay_due(bay: &[Row]) -> Option<u32>
    ensures { result ≡ bay_due bay.now }
{
    let mut due = None;
    for row in bay {
        due = earliest(due, Some(row.second));
    }
    due
}

/// Until when a front that neither stops nor arrives is held up: while there is no room in the buffer nobody can say, and else until
/// the credit pays, which it never does where nothing is gained.
fn held_due(numbers: &LinkNumbers, second: u32, buffered: usize, credit: &Credit) -> Option<u32>
    requires second_in { second < LAST_SECOND }
    requires near { AreNumbers numbers.now }
    ensures { result ≡ held_due (rules_of numbers.now no_dwelling) second buffered credit.now }
{
    if numbers.room as usize <= buffered || numbers.gain == 0 {
        return None;
    }
    let lacking = VEHICLE_COST.saturating_sub(credit.units());
    Some(second + lacking.div_ceil(numbers.gain))
}

impl LinkState {
    /// When the front of the queue may go.
    fn queue_due(&self, second: u32) -> Option<u32>
        requires { second < LAST_SECOND }
        ensures { let L = self.now.lists in
            result ≡ queue_due (rules_of self.now.numbers no_dwelling) second (length L.buffer) L.credit L.queue }
    {
        match self.queue.front() {
            None => None,
            Some(row) => {
                if row.second <= second {
                    return held_due(&self.numbers, second, self.buffer.len(), &self.credit);
                }
                Some(row.second)
            }
        }
    }

    /// When the front of the wait list may go.
    fn wait_due(&self, second: u32) -> Option<u32>
        requires { second < LAST_SECOND }
        ensures { let L = self.now.lists in
            result ≡ wait_due (rules_of self.now.numbers no_dwelling) second (length L.buffer) L.credit L.wait }
    {
        if self.wait.is_empty() {
            return None;
        }
        held_due(&self.numbers, second, self.buffer.len(), &self.credit)
    }

    /// The second in which the link, once it has had its turn in this one, may next have something to do, if nobody else does anything:
    /// a second in the bay comes, or that of the front of the queue, or the credit pays. `None`: it sleeps until it is woken.
    pub fn due(&self, second: u32) -> Option<u32>
        requires { second < LAST_SECOND }
        ensures { result ≡ due_of self.now.numbers second self.now.lists }
    {
        let held = earliest(self.wait_due(second), self.bay_due);
        earliest(self.queue_due(second), held)
    }

    /// Whether a front waits for room in the buffer, so that the link has to be woken when a vehicle leaves it.
    pub fn is_blocked(&self, second: u32) -> bool
        ensures { (dwell : Dwelling) → result ≡ is_blocked (rules_of self.now.numbers dwell) second self.now.lists }
    {
        let full = self.numbers.room as usize <= self.buffer.len();
        full && (self.has_come(second) || !self.wait.is_empty())
    }

    /// Whether the second of the front of the queue has come.
    fn has_come(&self, second: u32) -> bool
        ensures { result ≡ has_come second self.now.lists.queue }
    {
        match self.queue.front() {
            None => false,
            Some(row) => row.second <= second,
        }
    }
}
