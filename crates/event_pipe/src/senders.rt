//! The end of a partition.

ghost use Rattle.event_pipe.specs.Pipes.{IsStill, Sends, sent};

use crate::pieces::Piece;
use crate::tally::Tally;
use rtrb::{Producer, Protocol};
use std::alloc::Global;
use std::snapshot::Snapshot;

/// The end of a pipe at which one partition offers its pieces. It may move to another thread.
#[derive(Drop)]
pub struct Sender<P: Protocol<Piece>> {
    pub(crate) producer: Producer<Piece, Global, P>,
    /// Which partition it is of.
    pub(crate) partition: u32,
    /// How often it answered `Full`.
    pub(crate) refusals: Tally,
    /// What `refusals` was when it last answered `Sent`.
    pub(crate) refusals_at_sent: Snapshot<Tally>,
}

/// What an offer came to.
#[derive(Drop)]
pub enum Offer {
    /// The piece is on its way.
    Sent,
    /// No place is free as far as the sender knows: the piece, given back.
    Full(Piece),
}

impl<P: Protocol<Piece>> Sender<P> {
    /// Offers a piece, behind those that were sent before. It takes no memory and never waits. `Full` comes only where the sender knows no
    /// free place: it knows all places at first, and all that are free after [`crate::Gather::meet`].
    pub fn offer(&mut self, piece: Piece) -> Offer
        requires allowed { P.allows (sent self.old) piece }
        ensures sender { IsStill self.old self.new }
        ensures sends { Sends self.old self.new piece result }
    {
        if self.producer.is_full() {
            self.refusals.rise();
            return Offer::Full(piece);
        }
        self.producer.push_reserved(piece);
        self.refusals_at_sent = Snapshot::of(&self.refusals);
        Offer::Sent
    }
}
