//! Pieces by hand, and what becomes of them.

use event_pipe::{Offer, Piece, Sender};
use events::{Event, Key, More, Rows, Word};
use rtrb::AnyItems;
use std::alloc::Global;

/// An event: the number and the index of its key, which is of a hand-over of second 100.
pub(crate) type Sketch = (u32, u32);

/// What the first partition tells.
pub(crate) static NORTH: [Sketch; 2] = [(1, 0), (4, 2)];

/// What the second partition tells.
pub(crate) static SOUTH: [Sketch; 3] = [(2, 0), (4, 1), (5, 2)];

pub(crate) fn event_of(sketch: Sketch) -> Event {
    let (number, index) = sketch;
    Event {
        key: Key {
            second: 100,
            phase: 3,
            number,
            index,
        },
        word: Word::LeftLink,
        person: None,
        vehicle: None,
        link: Some(number),
        more: More::Nothing,
    }
}

/// A piece with these events; fewer where memory is wanting.
pub(crate) fn piece_of(alloc: Global, partition: u32, sketches: &[Sketch]) -> Piece {
    let mut rows = Vec::new(alloc);
    for sketch in sketches {
        let _ = rows.push(event_of(*sketch));
    }
    Piece {
        partition,
        events: Rows { rows },
    }
}

/// Whether these are the events.
pub(crate) fn are(events: &[Event], sketches: &[Sketch]) -> bool {
    if events.len() != sketches.len() {
        return false;
    }
    for place in 0..sketches.len() {
        if events[place] != event_of(sketches[place]) {
            return false;
        }
    }
    true
}

/// Whether the sender takes the piece.
pub(crate) fn sends(sender: &mut Sender<AnyItems>, piece: Piece) -> bool {
    match sender.offer(piece) {
        Offer::Sent => true,
        Offer::Full(_) => false,
    }
}

/// Whether the sender gives the piece back, which is of this partition and has these events.
pub(crate) fn gives_back(
    sender: &mut Sender<AnyItems>,
    piece: Piece,
    partition: u32,
    sketches: &[Sketch],
) -> bool {
    match sender.offer(piece) {
        Offer::Sent => false,
        Offer::Full(piece) => { piece.partition == partition && are(&piece.events.rows, sketches) }
    }
}
