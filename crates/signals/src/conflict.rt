use events::Rows;

/// Two links into one node of which no second may have both green, and the row of signals.csv that says so.
#[derive(Clone, Copy, Debug, PartialEq, Eq)]
pub struct Conflict {
    /// The number of the row of signals.csv, the header being row 0.
    pub row: u32,
    /// The number of the link that the row names first.
    pub link: u32,
    /// The number of the other link.
    pub other: u32,
}

/// Conflicts, in the order of their rows.
pub type ConflictList = Rows<Conflict>;
