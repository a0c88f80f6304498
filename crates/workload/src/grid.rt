ghost use Rattle.std.specs.Prelude.{◌≡◌, IfOk, string_bytes};
ghost use Rattle.workload.specs.{Grids.IsGrid, Texts.file_text};

use crate::DEPARTURES;
use crate::persons::plans_text;
use crate::roads::{links_text, nodes_text};
use crate::schedule::{departures_text, routes_text, stops_text};
use crate::settings::settings_text;
use edge_files::InFile;
use std::alloc::{AllocError, Global};

/// A generated scenario: a grid of as many rows of nodes as columns, with roads both ways between neighbours, a bus line along its first
/// row, and five persons for each node.
#[derive(Clone, Copy)]
pub struct Grid {
    /// How many rows and how many columns there are, `LEAST_SIZE` to `MOST_SIZE`.
    pub size: u32,
    /// Where all random words begin.
    pub seed: u64,
    /// The number of the last iteration, at most `learning::LAST_ITERATION`.
    pub last_iteration: u32,
    pub ghost in_range: { IsGrid size last_iteration },
}

/// The text of a file of a generated scenario. What else a scenario may have is empty: there are no signals.
pub fn file_text(alloc: Global, grid: &Grid, file: InFile) -> Result<String, AllocError>
    ensures { IfOk result (λ text. string_bytes text ≡ file_text grid.now.size grid.now.seed grid.now.last_iteration file) }
{
    match file {
        InFile::Settings => settings_text(alloc, grid.seed, grid.last_iteration),
        InFile::Nodes => nodes_text(alloc, grid.size),
        InFile::Links => links_text(alloc, grid.size),
        InFile::Plans => plans_text(alloc, grid.size, grid.seed),
        InFile::Stops => stops_text(alloc, grid.size),
        InFile::Routes => routes_text(alloc, grid.size),
        InFile::Departures => departures_text(alloc, DEPARTURES),
        _ => Ok(String::new(alloc)),
    }
}
