//! The events of a day on their way from the partitions of a network to whoever writes them, while the day runs: one ring of bounded room
//! for each partition, and one gatherer of what they told. What a partition may send behind what it has sent is a promise that its ring
//! keeps (`Protocol` of `rtrb`): who sends owes it, and who gathers has it, on whatever threads they are.
#![tactic(auto)]

mod consumers;
mod gathering;
mod making;
mod pieces;
mod senders;
mod tally;

pub use consumers::PieceRing;
pub use gathering::{Gather, Gathered};
pub use making::{MAX_ROOM, SenderList, pipe};
pub use pieces::Piece;
pub use senders::{Offer, Sender};
pub use tally::Tally;
