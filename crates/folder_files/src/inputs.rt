ghost use Rattle.std.specs.{Io.ReadsAtMost, Prelude.◌≡◌, Prelude.◌∷◌, Prelude.[], Prelude.None, Prelude.length};

use edge_files::{Failed, InFile, Inputs};
use std::fs;
use std::io::{self, ErrorKind, Read};
use std::rt::Files;

/// Whether a run has nothing to work on without this file.
fn is_needed(file: InFile) -> bool {
    matches!(file, InFile::Nodes | InFile::Links | InFile::Plans)
}

/// The files of the current folder, read one after the other. One that does not exist reads as
/// empty. A line on standard error says where one that is needed does not exist, and why a read
/// failed. What they hold is not told.
#[derive(Drop)]
pub struct FileInputs<'a, R: Files + Eprint> {
    rt: &'a R,
    at: Option<InFile>,
    file: Option<R::File>,
    faults: u64,
}

impl<'a, R: Files + Eprint> FileInputs<'a, R> {
    /// No file is opened yet.
    pub fn new(rt: &'a R) -> Self
        ensures { result.faults ≡ 0 }
    {
        FileInputs {
            rt,
            at: None,
            file: None,
            faults: 0,
        }
    }

    /// Opens a file, unless it is the one that is read.
    fn turn_to(&mut self, file: InFile) -> io::Result<()>
        ensures { self.new.faults ≡ self.old.faults }
    {
        if self.at == Some(file) {
            return Ok(());
        }
        self.file = match fs::open(self.rt, file.name()) {
            Ok(opened) => Some(opened),
            Err(error) if error.kind() == ErrorKind::NotFound => {
                self.miss(file);
                None
            }
            Err(error) => return Err(error),
        };
        self.at = Some(file);
        Ok(())
    }

    /// Says that a file does not exist, where it is needed.
    fn miss(&self, file: InFile) {
        if is_needed(file) {
            let _ = eprintln!(self.rt; "qsim: there is no {} in this folder", file.name());
        }
    }

    fn read_next(&mut self, file: InFile, into: &mut [u8]) -> io::Result<usize>
        ensures faults { self.new.faults ≡ self.old.faults }
        ensures bound { ReadsAtMost result into.new }
    {
        self.turn_to(file)?;
        match &mut self.file {
            Some(opened) => opened.read(into),
            None => Ok(0),
        }
    }
}

impl<R: Files + Eprint> Inputs for FileInputs<'_, R> {
    ghost left = { λ _ _. None };

    ghost faults = { λ s. s.faults };

    fn read(&mut self, file: InFile, into: &mut [u8]) -> Result<usize, Failed> {
        if into.is_empty() {
            return Ok(0);
        }
        match self.read_next(file, into) {
            Ok(count) => Ok(count),
            Err(error) => {
                self.faults = self.faults.saturating_add(1);
                let _ = eprintln!(self.rt; "qsim: {} could not be read: {error}", file.name());
                Err(Failed)
            }
        }
    }
}
