use std::fs;
use std::rt::Files;

/// Holds the places of the standard streams. Where one of them is closed as the program starts, the next file that is opened
/// would get its number, and what is meant for standard output would go into that file. So `/dev/null` is opened three times
/// before any other file, for reading alone: then a write to a closed standard output fails, as it should.
#[derive(Drop)]
pub struct StandardStreams<R: Files> {
    guards: [Option<R::File>; 3],
}

/// A file that is always there, for reading; none where it is not.
fn guard<R: Files>(rt: &R) -> Option<R::File> {
    match fs::open(rt, "/dev/null") {
        Ok(opened) => Some(opened),
        Err(_) => None,
    }
}

impl<R: Files> StandardStreams<R> {
    /// Takes the places; call it before any file is opened, and keep it until the end.
    pub fn hold(rt: &R) -> Self {
        StandardStreams {
            guards: [guard(rt), guard(rt), guard(rt)],
        }
    }
}
