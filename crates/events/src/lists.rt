ghost use Rattle.std.specs.Prelude.{◌≡◌, length, nat_eq, IfOk};

use crate::event::Event;
use std::alloc::AllocError;
use std::marker::Model;

/// Rows, in order or by their numbers.
#[derive(Debug, Drop)]
pub struct Rows<T> {
    pub rows: Vec<T>,
}

impl<T> Model for Rows<T> {
    ghost use Rattle.std.specs.Prelude.{List};

    ghost Value = { List T };

    ghost view = { λ l. l.rows.items };
}

impl<T> Rows<T> {
    /// How many there are.
    pub fn len(&self) -> usize
        ensures { result ≡ length self.now }
    {
        self.rows.len()
    }

    /// Whether there is none.
    pub fn is_empty(&self) -> bool
        ensures { result ≡ nat_eq (length self.now) 0 }
    {
        self.rows.is_empty()
    }
}

impl<T: Copy> Rows<T> {
    /// The same rows.
    pub fn try_clone(&self) -> Result<Self, AllocError>
        ensures { IfOk result (λ copy. copy ≡ self.now) }
    {
        let rows = Vec::from_slice(*self.rows.allocator(), &self.rows)?;
        Ok(Rows { rows })
    }
}

/// The links of a route, in order.
pub type Route = Rows<u32>;

/// A call of a transit route at a stop.
#[derive(Clone, Copy, Debug, PartialEq, Eq)]
pub struct StopCall {
    pub stop: u32,
    /// The link on which the stop lies.
    pub link: u32,
    /// Seconds after the departure at which the vehicle may go on.
    pub offset: u32,
    /// Whether the vehicle waits until then.
    pub wait: bool,
}

/// The calls of a transit route, in order.
pub type Calls = Rows<StopCall>;

/// Events, in order.
pub type EventList = Rows<Event>;
