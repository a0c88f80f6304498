//! The end of the gatherer.

ghost use Rattle.std.specs.Prelude.{◌≤◌, length};
ghost use Rattle.limits.specs.declared.TheConstants.{MAX_PARTITIONS};

use crate::consumers::{PieceRing, first_short, know_all, some_abandoned, take_next};
use crate::pieces::Piece;
use crate::senders::Sender;
use events::EventList;
use rtrb::Protocol;
use std::alloc::{AllocError, Global};

/// The end of a pipe at which the pieces of all partitions are gathered, one of each at a time. It may move to another thread.
#[derive(Drop)]
pub struct Gather<P: Protocol<Piece>> {
    /// The rings of the partitions, by number.
    pub(crate) rings: Vec<PieceRing<P>>,
    ghost few: { length rings.items ≤ MAX_PARTITIONS },
}

/// What gathering came to.
#[derive(Drop)]
pub enum Gathered {
    /// The events of the next piece of every partition, by number.
    Pieces(Vec<EventList>),
    /// No next piece of this partition is known; it is the least such one.
    Short { partition: u32 },
}

impl<P: Protocol<Piece>> Gather<P> {
    ghost use Rattle.std.specs.Prelude.{◌≡◌, IfOk, OnErr};
    ghost use Rattle.event_pipe.specs.Pipes.{parts, IsAsBefore, KeepsSenders, Gathers, IsSenderOf, HasMet, HasSentNothing, IsStill};

    /// Gives the events of the next piece of every partition, moved and not copied. `Short` comes only where no next piece of the partition
    /// is known. After it, and after an error, the pieces that are still to be gathered are as before.
    ///
    /// # Errors
    ///
    /// `AllocError`: there is no memory for the list of the pieces.
    pub fn next(&mut self, alloc: Global) -> Result<Gathered, AllocError>
        ensures gathers { IfOk result (Gathers P.allows self.old self.new) }
        ensures as_before { OnErr result (IsAsBefore self.old self.new) }
        ensures parts { parts self.new ≡ parts self.old }
        ensures senders { KeepsSenders self.old self.new }
    {
        if let Some(partition) = first_short(&mut self.rings) {
            return Ok(Gathered::Short {
                partition: partition as u32,
            });
        }
        match Vec::with_capacity(alloc, self.rings.len()) {
            Ok(mut lists) => {
                take_next(&mut self.rings, &mut lists);
                Ok(Gathered::Pieces(lists))
            }
            Err(_) => Err(AllocError),
        }
    }

    /// Whether the sender of some partition was dropped. No clause speaks of the answer.
    pub fn is_abandoned(&mut self) -> bool
        ensures as_before { IsAsBefore self.old self.new }
        ensures senders { KeepsSenders self.old self.new }
    {
        some_abandoned(&mut self.rings)
    }

    /// Meets the sender of a partition, which has come back to this thread: from then on the gatherer knows all pieces that were sent and
    /// not gathered, and the sender all free places.
    pub fn meet(&mut self, partition: u32, sender: &mut Sender<P>)
        requires { IsSenderOf self.old partition sender.old }
        ensures met { HasMet self.new partition sender.new }
        ensures sender { IsStill sender.old sender.new }
        ensures as_sent { HasSentNothing sender.old sender.new }
        ensures as_before { IsAsBefore self.old self.new }
        ensures senders { KeepsSenders self.old self.new }
    {
        let ring = &mut self.rings[partition as usize];
        know_all(&mut sender.producer, ring);
    }
}
