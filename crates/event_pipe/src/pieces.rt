//! What a partition tells of some seconds.

ghost use Rattle.std.specs.Prelude.{◌≡◌};
ghost use Rattle.event_pipe.specs.Pieces as pieces;

use events::{EventList, Rows};
use std::alloc::Global;

/// What a partition tells of some seconds.
#[derive(Drop)]
pub struct Piece {
    /// Whose it is.
    pub partition: u32,
    pub events: EventList,
}

/// The piece with which the ring of a partition begins. It takes no memory.
pub(crate) fn label(alloc: Global, partition: u32) -> Piece
    ensures { result ≡ pieces.label partition }
{
    Piece {
        partition,
        events: Rows {
            rows: Vec::new(alloc),
        },
    }
}
