ghost use Rattle.std.specs.Prelude.{◌≡◌};
ghost use Rattle.edge_files.specs.Reasons.{reason_number, reason_name};

use std::fmt;
use thiserror::Error;

/// Why a row is refused, in the order of the reasons' numbers.
#[derive(Clone, Copy, Debug, PartialEq, Eq)]
pub enum Reason {
    /// Row 0 is not the header.
    Header,
    /// The row has another number of fields than the header, or text in a field that has to be empty.
    FieldCount,
    /// What must be a name is none.
    BadName,
    /// What must be a number is none, or is out of its range.
    BadNumber,
    /// The name was given in an earlier row, or the person has earlier rows with another person's between.
    Twice,
    /// What the row names does not exist.
    Unknown,
    /// The row does not go on from the row before.
    Order,
    /// A link of a route does not begin where the link before it ends.
    RouteBroken,
    /// A car route does not lead from the activity before it to the one after it.
    EndWrong,
    /// A leg's mode is none that there is.
    ModeUnknown,
    /// With this row a count passes its limit.
    TooMany,
    /// The file has its header and no further row.
    Empty,
    /// The file has too many bytes.
    TooLong,
    /// The settings are no JSON object.
    NotJson,
    /// The settings have a key that there is not.
    KeyUnknown,
    /// A value of the settings is not of its form or not in its range.
    ValueBad,
    /// A transit leg does not fit its activities' links or its line.
    StopsWrong,
    /// The link is one too many into its end node.
    InLinks,
    /// No way joins the two links, or only one that is too long.
    NoRoute,
    /// A table's points do not rise, are none or too many, or a kind has two tables.
    TableWrong,
    /// A transit route's stops cannot be served in order along its links.
    StopLink,
    /// A signal's row is not of its form.
    SignalWrong,
    /// A signal's green meets another one that it must not meet.
    Conflict,
}

impl Reason {
    /// The reason's number, from 1. Of two reasons of a row the lower one is told.
    #[tactic(auto, unfolding(crate::specs::Reasons::reason_number))]
    pub fn number(self) -> u32
        ensures { result ≡ reason_number self }
    {
        self as u32 + 1
    }

    /// The reason's name, as the report shows it.
    #[tactic(auto, unfolding(crate::specs::Reasons::reason_name))]
    pub fn name(self) -> &'static str
        ensures { result.now ≡ reason_name self }
    {
        match self {
            Reason::Header => "Header",
            Reason::FieldCount => "FieldCount",
            Reason::BadName => "BadName",
            Reason::BadNumber => "BadNumber",
            Reason::Twice => "Twice",
            Reason::Unknown => "Unknown",
            Reason::Order => "Order",
            Reason::RouteBroken => "RouteBroken",
            Reason::EndWrong => "EndWrong",
            Reason::ModeUnknown => "ModeUnknown",
            Reason::TooMany => "TooMany",
            Reason::Empty => "Empty",
            Reason::TooLong => "TooLong",
            Reason::NotJson => "NotJson",
            Reason::KeyUnknown => "KeyUnknown",
            Reason::ValueBad => "ValueBad",
            Reason::StopsWrong => "StopsWrong",
            Reason::InLinks => "InLinks",
            Reason::NoRoute => "NoRoute",
            Reason::TableWrong => "TableWrong",
            Reason::StopLink => "StopLink",
            Reason::SignalWrong => "SignalWrong",
            Reason::Conflict => "Conflict",
        }
    }
}

impl fmt::Display for Reason {
    fn fmt<W: fmt::Write>(&self, f: &mut fmt::Formatter<W>) -> fmt::Result {
        f.write_str(self.name())
    }
}

/// A fault of a file: the row, where 0 is the header or the whole file, and what is wrong with it.
#[derive(Clone, Copy, Debug, PartialEq, Eq, Error)]
#[error("row {row}: {reason}")]
pub struct RowFault {
    pub row: u32,
    pub reason: Reason,
}

/// Why a file's rows were not read.
#[derive(Clone, Copy, Debug, PartialEq, Eq, Error)]
pub enum RowStop {
    #[error("{0}")]
    Fault(RowFault),
    #[error("no memory")]
    NoMemory,
}
