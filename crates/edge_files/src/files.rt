ghost use Rattle.std.specs.{List.slice_index_or, Prelude.◌≡◌, Prelude.◌<◌, Prelude.map, Prelude.option_copied};
ghost use Rattle.edge_files.specs.Files.{in_file_name, out_file_name, in_place, out_place};

use std::fmt;
use thiserror::Error;

/// The files that a run reads, in the order in which it reads them.
#[derive(Clone, Copy, Debug, PartialEq, Eq)]
pub enum InFile {
    Settings,
    Nodes,
    Links,
    Plans,
    Stops,
    Routes,
    Departures,
    Signals,
}

/// The files that a run reads, in the order in which it reads them.
pub const SCENARIO_FILES: [InFile; 8] = [
    InFile::Settings,
    InFile::Nodes,
    InFile::Links,
    InFile::Plans,
    InFile::Stops,
    InFile::Routes,
    InFile::Departures,
    InFile::Signals,
];

/// How many files a run reads.
pub const FILE_COUNT: usize = SCENARIO_FILES.len();

/// Each file's name in the current folder, in the same order.
pub const FILE_NAMES: [(InFile, &str); FILE_COUNT] = [
    (InFile::Settings, "settings.json"),
    (InFile::Nodes, "nodes.csv"),
    (InFile::Links, "links.csv"),
    (InFile::Plans, "plans.csv"),
    (InFile::Stops, "stops.csv"),
    (InFile::Routes, "routes.csv"),
    (InFile::Departures, "departures.csv"),
    (InFile::Signals, "signals.csv"),
];

impl InFile {
    /// The file's name in the current folder.
    #[tactic(auto, unfolding(crate::specs::Files::in_file_name))]
    pub fn name(self) -> &'static str
        ensures name { result.now ≡ in_file_name self }
        ensures each { map (λ named. named.0) FILE_NAMES ≡ SCENARIO_FILES }
    {
        FILE_NAMES[self.place()].1
    }

    /// The file's place among all of them, from 0.
    pub fn place(self) -> usize
        ensures place { result ≡ in_place self }
        ensures below { result < FILE_COUNT }
        ensures listed { slice_index_or SCENARIO_FILES result InFile.Settings ≡ self }
    {
        self as usize
    }
}

impl fmt::Display for InFile {
    fn fmt<W: fmt::Write>(&self, f: &mut fmt::Formatter<W>) -> fmt::Result {
        f.write_str(self.name())
    }
}

/// The files that a run writes. The report is no file of the folder: it goes to standard output.
#[derive(Clone, Copy, Debug, PartialEq, Eq)]
pub enum OutFile {
    Events,
    Scores,
    Plans,
    Report,
}

impl OutFile {
    /// The file's name in the current folder, where it is a file there.
    #[tactic(auto, unfolding(crate::specs::Files::out_file_name))]
    pub fn name(self) -> Option<&'static str>
        ensures { option_copied result ≡ out_file_name self }
    {
        match self {
            OutFile::Events => Some("events.csv"),
            OutFile::Scores => Some("scores.csv"),
            OutFile::Plans => Some("plans_out.csv"),
            OutFile::Report => None,
        }
    }

    /// The file's place among all of them, from 0.
    pub fn place(self) -> usize
        ensures place { result ≡ out_place self }
        ensures below { result < 4 }
    {
        self as usize
    }
}

/// A read or a write failed outside.
#[derive(Clone, Copy, Debug, PartialEq, Eq, Error)]
#[error("a read or a write failed")]
pub struct Failed;
