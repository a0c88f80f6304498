//! A new pipe.

ghost use Rattle.std.specs.Prelude.{ℕ, ◌<◌, ◌≤◌, [], IfOk};
ghost use Rattle.limits.specs.declared.TheConstants.{MAX_PARTITIONS};
ghost use Rattle.event_pipe.specs.Pieces as pieces;
ghost use Rattle.event_pipe.specs.Pipes.{IsNewPipe, IsNewSender, IsMade};

use crate::consumers::{PieceRing, know_all};
use crate::gathering::Gather;
use crate::pieces::{Piece, label};
use crate::senders::Sender;
use crate::tally::Tally;
use events::Rows;
use rtrb::{Producer, Protocol, RingBuffer};
use std::alloc::{AllocError, Global};
use std::snapshot::Snapshot;

/// The most pieces of a partition that a pipe has room for.
pub const MAX_ROOM: u32 = 4_096;

/// The senders of a pipe, by the numbers of their partitions.
pub type SenderList<P> = Rows<Sender<P>>;

/// A sender that has refused nothing.
fn new_sender<P: Protocol<Piece>>(producer: Producer<Piece, Global, P>, partition: u32) -> Sender<P>
    ensures { IsNewSender partition producer result }
{
    let refusals = Tally::Nothing;
    let refusals_at_sent = Snapshot::of(&refusals);
    Sender {
        producer,
        partition,
        refusals,
        refusals_at_sent,
    }
}

/// The sender of a partition and its ring, out of which the label was taken.
///
/// # Errors
///
/// `AllocError`: there is no memory for the ring.
fn new_ring<P: Protocol<Piece>>(
    alloc: Global,
    partition: u32,
    room: u32,
) -> Result<(Sender<P>, PieceRing<P>), AllocError>
    requires some_room { 1 ≤ room }
    requires label { P.allows [] (pieces.label partition) }
    ensures { IfOk result (λ ends. IsMade room partition ends.0 ends.1) }
{
    let (mut producer, mut ring) = RingBuffer::with_protocol::<Global, P>(alloc, room as usize)?;
    producer.push_reserved(label(alloc, partition));
    know_all(&mut producer, &mut ring);
    drop(ring.pop_known());
    know_all(&mut producer, &mut ring);
    Ok((new_sender(producer, partition), ring))
}

/// A pipe with so many partitions, numbered from 0, and room for so many pieces of each. Each ring begins with the label of its partition,
/// a piece with no events, which has been gathered; so whoever gathers knows whose ring it is. All places are free behind it.
///
/// # Errors
///
/// `AllocError`: there is no memory for it.
pub fn pipe<P: Protocol<Piece>>(
    alloc: Global,
    parts: u32,
    room: u32,
) -> Result<(SenderList<P>, Gather<P>), AllocError>
    requires some_parts { 1 ≤ parts }
    requires few_parts { parts ≤ MAX_PARTITIONS }
    requires some_room { 1 ≤ room }
    requires little_room { room ≤ MAX_ROOM }
    requires labels { (p : ℕ) → p < parts → P.allows [] (pieces.label p) }
    ensures { IfOk result (λ ends. IsNewPipe parts room ends.0 ends.1) }
{
    let mut senders = Vec::new(alloc);
    let mut rings = Vec::new(alloc);
    for partition in 0..parts {
        let (sender, ring) = new_ring::<P>(alloc, partition, room)?;
        senders.push(sender)?;
        rings.push(ring)?;
    }
    Ok((Rows { rows: senders }, Gather { rings }))
}
