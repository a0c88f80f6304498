//! The persons of phases A and B1.

ghost use Rattle.std.specs.Ordering.{nat_cmp};
ghost use Rattle.std.specs.Prelude.{◌≡◌, [], OnOk, OnErr, IfOk, IsPermutation, IsSorted};
ghost use Rattle.calendar.specs.Due.{due_at, HasNone, HasOneMore};
ghost use Rattle.agents.specs.Due.{HasOneMoreWhere};

use crate::agents_due::Agents;
use calendar::Calendar;
use events::Rows;
use std::alloc::{AllocError, Global};

/// Persons, in order.
pub type PersonList = Rows<u32>;

/// Those who are due in a second, by number.
fn in_order(due: &mut Calendar, second: u32) -> Result<PersonList, AllocError>
    ensures same { IfOk result (λ persons. IsPermutation (due_at second due.old) persons) }
    ensures order { IfOk result (λ persons. IsSorted nat_cmp persons) }
    ensures rest { OnOk result (HasNone second due.old due.new) }
    ensures err { OnErr result (due.new ≡ due.old) }
{
    let mut persons = due.take(second)?;
    persons.sort_unstable();
    Ok(PersonList { rows: persons })
}

impl Agents {
    /// Nobody is due.
    pub fn new(alloc: Global) -> Agents
        ensures ends { result.ends ≡ [] }
        ensures flights { result.flights ≡ [] }
    {
        Agents {
            ends: Calendar::new(alloc),
            flights: Calendar::new(alloc),
        }
    }

    /// A person begins an activity that ends at this second, or never. There is a place for each block of seconds up to
    /// that of the last one that was given, so an end behind that of the day is best given as none.
    ///
    /// # Errors
    ///
    /// `AllocError`: there is no memory for one more, or for the seconds up to then.
    pub fn start(&mut self, person: u32, end: Option<u32>) -> Result<(), AllocError>
        ensures ends { OnOk result (HasOneMoreWhere end person self.old.ends self.new.ends) }
        ensures flights { OnOk result (self.new.flights ≡ self.old.flights) }
    {
        match end {
            None => Ok(()),
            Some(second) => {
                self.ends.add(second, person)?;
                Ok(())
            }
        }
    }

    /// A person sets out on a teleported leg that ends in this second.
    ///
    /// # Errors
    ///
    /// `AllocError`: there is no memory for one more, or for the seconds up to then.
    pub fn fly(&mut self, person: u32, due: u32) -> Result<(), AllocError>
        ensures flights { OnOk result (HasOneMore due person self.old.flights self.new.flights) }
        ensures ends { OnOk result (self.new.ends ≡ self.old.ends) }
    {
        self.flights.add(due, person)?;
        Ok(())
    }

    /// Takes those whose teleported legs end in this second, by number.
    ///
    /// # Errors
    ///
    /// `AllocError`: there is no memory for the answer. The same ones are due then as before.
    pub fn arrivals(&mut self, second: u32) -> Result<PersonList, AllocError>
        ensures same { IfOk result (λ persons. IsPermutation (due_at second self.old.flights) persons) }
        ensures order { IfOk result (λ persons. IsSorted nat_cmp persons) }
        ensures rest { OnOk result (HasNone second self.old.flights self.new.flights) }
        ensures err { OnErr result (self.new.flights ≡ self.old.flights) }
        ensures ends { self.new.ends ≡ self.old.ends }
    {
        in_order(&mut self.flights, second)
    }

    /// Takes those whose activities end in this second, by number.
    ///
    /// # Errors
    ///
    /// `AllocError`: there is no memory for the answer. The same ones are due then as before.
    pub fn ends(&mut self, second: u32) -> Result<PersonList, AllocError>
        ensures same { IfOk result (λ persons. IsPermutation (due_at second self.old.ends) persons) }
        ensures order { IfOk result (λ persons. IsSorted nat_cmp persons) }
        ensures rest { OnOk result (HasNone second self.old.ends self.new.ends) }
        ensures err { OnErr result (self.new.ends ≡ self.old.ends) }
        ensures flights { self.new.flights ≡ self.old.flights }
    {
        in_order(&mut self.ends, second)
    }
}
