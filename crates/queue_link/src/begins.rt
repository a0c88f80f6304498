//! Steps 1 and 2 of a link's second: vehicles leave the bay, and the credit is raised.

ghost use Rattle.std.specs.Prelude.{◌≡◌, ◌+◌, ◌-◌, ◌<◌, ◌≤◌, ◌++◌, map, filter, OnOk, IfOk};
ghost use Rattle.std.specs.List.{flat_map};
ghost use Rattle.limits.specs.declared.TheConstants.{LAST_SECOND};
ghost use Rattle.traffic.specs.{Links.waiting, Links.wait_after, Telling.goes_on};
ghost use Rattle.queue_link.specs.{Turns.is_due, Turns.left_in_bay, Turns.begun, Waking.is_by};

use crate::sleeps::bay_due;
use crate::state::LinkState;
use std::alloc::AllocError;
use std::collections::VecDeque;
use std::mem::replace;
use traffic::{Occurrence, Row, Stage};
use vehicles::push_goes_on;

/// The row at the end of a wait list.
fn waiting(link: u32, row: Row) -> Row
    ensures { result ≡ waiting link row }
{
    let mut after = row;
    after.link = link;
    after.stage = Stage::Wait;
    after.second = 0;
    after
}

/// Those of a bay whose second has come go to the end of the wait list, in order, and tell it; answers the others.
fn leave_bay(
    second: u32,
    link: u32,
    bay: Vec<Row>,
    wait: &mut VecDeque<Row>,
    said: &mut Vec<Occurrence>,
) -> Result<Vec<Row>, AllocError>
    ensures left { IfOk result (λ left. left.items ≡ left_in_bay second bay.items) }
    ensures wait { OnOk result (wait.new.items ≡ wait.old.items ++ map (waiting link) (filter (is_due second) bay.items)) }
    ensures told { OnOk result (said.new.items ≡ said.old.items ++ flat_map goes_on (filter (is_due second) bay.items)) }
{
    let mut left = Vec::new(*bay.allocator());
    for row in bay {
        if row.second <= second {
            push_goes_on(&row, said)?;
            wait.push_back(waiting(link, row))?;
        } else {
            left.push(row)?;
        }
    }
    Ok(left)
}

/// Whether this second has come.
fn has_come(second: u32, due: Option<u32>) -> bool
    ensures { result ≡ is_by second due }
{
    match due {
        None => false,
        Some(due) => due <= second,
    }
}

impl LinkState {
    /// Step 1: the vehicles in the bay whose second has come go to the end of the wait list, which tells that they go on. The bay is not
    /// looked through where that is none.
    fn let_leave(&mut self, second: u32, said: &mut Vec<Occurrence>) -> Result<(), AllocError>
        ensures left { OnOk result (self.new ≡ record self.old {
          lists = record self.old.lists {
            wait = wait_after second self.old.numbers.link self.old.lists;
            bay = left_in_bay second self.old.lists.bay;
          };
        }) }
        ensures told { OnOk result (said.new.items ≡ said.old.items
            ++ flat_map goes_on (filter (is_due second) self.old.lists.bay)) }
    {
        if !has_come(second, self.bay_due) {
            return Ok(());
        }
        let alloc = *self.bay.allocator();
        let bay = replace(&mut self.bay, Vec::new(alloc));
        self.bay_due = None;
        let left = leave_bay(second, self.numbers.link, bay, &mut self.wait, said)?;
        self.bay_due = bay_due(&left);
        self.bay = left;
        Ok(())
    }

    /// Begins a second: the vehicles in the bay whose second has come go to the end of the wait list, which tells that they go on, and the
    /// credit is raised, once for this second and once for each before it for which it was not.
    ///
    /// # Errors
    ///
    /// `AllocError`: there is no memory for a row or an event. The link is then of no use.
    pub fn begin(&mut self, second: u32, said: &mut Vec<Occurrence>) -> Result<(), AllocError>
        requires second_in { second < LAST_SECOND }
        requires later { self.old.raised ≤ second }
        ensures begun { OnOk result (self.new ≡ record self.old {
          lists = begun self.old.numbers.gain (second + 1 - self.old.raised) second self.old.numbers.link self.old.lists;
          raised = second + 1;
        }) }
        ensures told { OnOk result (said.new.items ≡ said.old.items
            ++ flat_map goes_on (filter (is_due second) self.old.lists.bay)) }
    {
        self.let_leave(second, said)?;
        self.credit
            .raise_by(self.numbers.gain, second + 1 - self.raised);
        self.raised = second + 1;
        Ok(())
    }
}
