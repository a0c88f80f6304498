use crate::stage::Stage;
use crate::world::Row;
use events::{More, Rows, VehicleId, Word};

/// An event without its key.
#[derive(Clone, Copy, Debug, PartialEq, Eq)]
pub struct Occurrence {
    pub word: Word,
    pub person: Option<u32>,
    pub vehicle: Option<VehicleId>,
    pub link: Option<u32>,
    pub more: More,
}

/// What is told, in order.
pub type OccurrenceList = Rows<Occurrence>;

/// What happens. A row that is moved is the one at this place among those of a link at a stage.
#[derive(Drop)]
pub enum Move {
    /// It is taken out, and `now`, the row as it is from now on, is put last.
    Transfer {
        link: u32,
        stage: Stage,
        place: usize,
        was: Row,
        now: Row,
    },
    /// It is taken out for good.
    Remove {
        link: u32,
        stage: Stage,
        place: usize,
        was: Row,
    },
    /// A new row is put last.
    Enter {
        now: Row,
    },
    /// The front of the buffer of a link gets this second where it stands.
    SetFrontSince {
        link: u32,
        second: u32,
    },
    /// The credit of a link is now this.
    Credit {
        link: u32,
        credit: u32,
    },
    /// A place in the queue of a link is left in this second.
    LeaveHole {
        link: u32,
        second: u32,
    },
    /// This is told of persons, and moves no vehicle.
    Report {
        says: OccurrenceList,
    },
}
