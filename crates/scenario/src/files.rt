ghost use Rattle.std.specs.Prelude.{◌≡◌, ◌≢◌, [], Some, option_map, find, is_none};
ghost use Rattle.edge_files.specs.declared.files.InFile.{InFile};
ghost use Rattle.scenario.specs.Views.{texts_of};

use edge_files::{Bytes, FILE_COUNT, InFile, SCENARIO_FILES};
use std::alloc::Global;
use std::array;

/// What was read of each file: its bytes, or nothing where it has more than 2^28 of them.
#[derive(Drop)]
pub struct Files {
    texts: [Option<Bytes>; FILE_COUNT],
}

impl Files {
    /// Files of no bytes.
    pub fn new(alloc: Global) -> Self
        ensures { (file : InFile) → texts_of result file ≡ Some [] }
    {
        Files {
            texts: array::from_fn(|_| Some(Bytes::new(alloc))),
        }
    }

    /// Replaces what was read of a file.
    pub fn put(&mut self, file: InFile, text: Option<Bytes>)
        ensures put { texts_of self.new file ≡ text }
        ensures others { (other : InFile) → other ≢ file → texts_of self.new other ≡ texts_of self.old other }
    {
        self.texts[file.place()] = text;
    }

    /// The bytes of a file, or nothing where it is too long.
    pub fn text(&self, file: InFile) -> Option<&[u8]>
        ensures { option_map (λ bytes. bytes.now) result ≡ texts_of self.now file }
    {
        match &self.texts[file.place()] {
            Some(bytes) => Some(&bytes.rows),
            None => None,
        }
    }

    fn is_long(&self, file: InFile) -> bool
        ensures { result ≡ is_none (texts_of self.now file) }
    {
        self.texts[file.place()].is_none()
    }

    /// The first file of a scenario that is too long, where there is one.
    pub fn long(&self) -> Option<InFile>
        ensures { result ≡ find (λ file. is_none (texts_of self.now file)) SCENARIO_FILES }
    {
        SCENARIO_FILES
            .iter()
            .copied()
            .find(|file| self.is_long(*file))
    }
}
