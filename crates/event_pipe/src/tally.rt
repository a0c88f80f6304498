//! A count that contracts alone see.

ghost use Rattle.std.specs.Prelude.{◌≡◌, ◌+◌};
ghost use Rattle.event_pipe.specs.Tallies.{count_of};

use std::snapshot::Snapshot;

/// A count with no greatest value. It is kept for contracts alone: the program does not see how far it has come.
#[derive(Drop)]
pub enum Tally {
    /// Nothing was counted.
    Nothing,
    /// One more than this tally had.
    OneMore(Snapshot<Tally>),
}

impl Tally {
    /// One more is counted.
    pub(crate) fn rise(&mut self)
        ensures { count_of self.new ≡ count_of self.old + 1 }
    {
        *self = Tally::OneMore(Snapshot::of(self));
    }
}
