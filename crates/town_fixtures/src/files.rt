//! Scenarios out of the texts of their files.

use edge_files::{Bytes, InFile};
use scenario::{Files, Scenario, assemble};
use std::alloc::Global;
use std::thread::Threads;

/// A text; no file where memory is wanting.
fn bytes_of(alloc: Global, text: &str) -> Option<Bytes> {
    match Vec::from_slice(alloc, text.as_bytes()) {
        Ok(rows) => Some(Bytes { rows }),
        Err(_) => None,
    }
}

/// The scenario of these texts, where they have no fault. A file of which none is given is not there.
pub(crate) fn scenario_of<R: Threads + Sync>(
    rt: &R,
    alloc: Global,
    texts: &[(InFile, &str)],
) -> Option<Scenario> {
    let mut files = Files::new(alloc);
    for (file, text) in texts {
        files.put(*file, bytes_of(alloc, text));
    }
    assemble(rt, alloc, &files).ok()
}
