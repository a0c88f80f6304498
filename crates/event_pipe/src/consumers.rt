//! The ends of the rings of all partitions out of which pieces are taken.

ghost use Rattle.std.specs.Prelude.{◌≡◌, ◌+◌, ◌≤◌, ◌++◌, map, length, vec_len, vec_capacity, IfNone, IfSome};
ghost use Rattle.rtrb.specs.Ring.{IsPair, ProducerLooked, ConsumerLooked, producer_capacity, known_free, received, known_items};
ghost use Rattle.rtrb.specs.Ring as ends;
ghost use Rattle.event_pipe.specs.{Pieces.events_of, Rings.next_pieces, Rings.AreLooked, Rings.AllWait, Rings.IsFirstShort, Rings.AreTaken};

use crate::pieces::Piece;
use events::EventList;
use rtrb::{Consumer, Producer, Protocol};
use std::alloc::Global;

/// The end of the ring of a partition out of which its pieces are taken.
pub type PieceRing<P> = Consumer<Piece, Global, P>;

/// Both ends of a ring, which are on one thread, get to know all: one the items that are in it, the other the places that are free.
pub(crate) fn know_all<P: Protocol<Piece>>(
    producer: &mut Producer<Piece, Global, P>,
    ring: &mut PieceRing<P>,
)
    requires { IsPair producer.old ring.old }
    ensures producer { ProducerLooked producer.old producer.new }
    ensures ring { ConsumerLooked ring.old ring.new }
    ensures items { received ring.new ++ known_items ring.new ≡ ends.sent producer.new }
    ensures places { producer_capacity producer.new ≤ known_free producer.new + length (known_items ring.new) }
{
    producer.slots_beside(ring);
    ring.slots_beside(producer);
}

/// The first ring in which no piece is known to lie.
pub(crate) fn first_short<P: Protocol<Piece>>(rings: &mut [PieceRing<P>]) -> Option<usize>
    ensures looked { AreLooked rings.old rings.new }
    ensures none { IfNone result (AllWait rings.new) }
    ensures some { IfSome result (IsFirstShort rings.new) }
{
    for place in 0..rings.len() {
        if rings[place].is_empty() {
            return Some(place);
        }
    }
    None
}

/// Whether the other end of some ring was dropped.
pub(crate) fn some_abandoned<P: Protocol<Piece>>(rings: &mut [PieceRing<P>]) -> bool
    ensures { AreLooked rings.old rings.new }
{
    for place in 0..rings.len() {
        if rings[place].is_abandoned() {
            return true;
        }
    }
    false
}

/// Takes the next piece out of every ring, and puts what it has into a list that has room for all.
pub(crate) fn take_next<P: Protocol<Piece>>(rings: &mut [PieceRing<P>], lists: &mut Vec<EventList>)
    requires waiting { AllWait rings.old }
    requires none { vec_len lists.old ≡ 0 }
    requires room { length rings.old ≤ vec_capacity lists.old }
    ensures taken { AreTaken P.allows (length rings.old) rings.old rings.new }
    ensures lists { lists.new.items ≡ map events_of (next_pieces rings.old) }
{
    for number in 0..rings.len() {
        let Piece {
            partition: _partition,
            events,
        } = rings[number].pop_known();
        lists.push_reserved(events);
    }
}
