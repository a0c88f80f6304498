ghost use Rattle.std.specs.{Io.WritesAtMost, Prelude.◌≡◌, Prelude.◌<◌, Prelude.None, Prelude.length, Prelude.IfOk};
ghost use Rattle.edge_files.specs.Causes.{Rose};

use edge_files::{Failed, OutFile, Outputs};
use std::fs;
use std::io::{self, ErrorKind, Print, Write};
use std::rt::Files;

/// Files of the current folder, and standard output for the report. A file is created, or emptied,
/// at the first write to it. A line on standard error says why a write failed. What they hold is
/// not told.
#[derive(Drop)]
pub struct FileOutputs<'a, R: Files + Print + Eprint> {
    rt: &'a R,
    events: Option<R::File>,
    scores: Option<R::File>,
    plans: Option<R::File>,
    faults: u64,
}

/// Writes the next bytes to a file of the folder, which is created if it is not open yet.
fn write_next<R: Files>(
    rt: &R,
    file: OutFile,
    opened: &mut Option<R::File>,
    piece: &[u8],
) -> io::Result<usize>
    ensures { WritesAtMost result piece.now }
{
    if opened.is_none() {
        let Some(name) = file.name() else {
            return Ok(0);
        };
        *opened = Some(fs::create(rt, name)?);
    }
    match opened {
        Some(stream) => stream.write(piece),
        None => Ok(0),
    }
}

impl<'a, R: Files + Print + Eprint> FileOutputs<'a, R> {
    /// No file is created yet.
    pub fn new(rt: &'a R) -> Self
        ensures { result.faults ≡ 0 }
    {
        FileOutputs {
            rt,
            events: None,
            scores: None,
            plans: None,
            faults: 0,
        }
    }

    /// Counts a failed write, and says why it failed.
    fn fail(&mut self, file: OutFile, error: io::Error) -> Failed
        ensures { Rose self.old.faults self.new.faults }
    {
        self.faults = self.faults.saturating_add(1);
        let name = file.name().unwrap_or("standard output");
        let _ = eprintln!(self.rt; "qsim: {name} could not be written: {error}");
        Failed
    }

    fn write_to(&mut self, file: OutFile, piece: &[u8]) -> io::Result<usize>
        ensures faults { self.new.faults ≡ self.old.faults }
        ensures bound { WritesAtMost result piece.now }
    {
        match file {
            OutFile::Events => write_next(self.rt, file, &mut self.events, piece),
            OutFile::Scores => write_next(self.rt, file, &mut self.scores, piece),
            OutFile::Plans => write_next(self.rt, file, &mut self.plans, piece),
            OutFile::Report => io::writer(self.rt).write(piece),
        }
    }
}

impl<R: Files + Print + Eprint> Outputs for FileOutputs<'_, R> {
    ghost written = { λ _ _. None };

    ghost faults = { λ s. s.faults };

    fn write(&mut self, file: OutFile, piece: &[u8]) -> Result<usize, Failed> {
        if piece.is_empty() {
            return Ok(0);
        }
        match self.write_to(file, piece) {
            Ok(0) => Err(self.fail(file, ErrorKind::WriteZero.into())),
            Ok(count) => Ok(count),
            Err(error) => Err(self.fail(file, error)),
        }
    }
}
