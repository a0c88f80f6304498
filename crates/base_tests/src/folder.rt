//! Files of the current folder, read and written.

use edge_files::{InFile, OutFile, ReadStop, read_whole, write_whole};
use folder_files::{FileInputs, FileOutputs};
use std::alloc::Global;
use std::fs;

/// Whether a file, which may have three bytes, has these.
fn is_read(
    alloc: Global,
    inputs: &mut FileInputs<'_, HostRuntime>,
    file: InFile,
    bytes: &[u8],
) -> bool {
    match read_whole(alloc, inputs, file, 3) {
        Ok(read) => read.as_slice() == bytes,
        Err(_) => false,
    }
}

/// Whether a file cannot be read.
fn is_unread(alloc: Global, inputs: &mut FileInputs<'_, HostRuntime>, file: InFile) -> bool {
    match read_whole(alloc, inputs, file, 3) {
        Ok(_) => false,
        Err(stop) => stop == ReadStop::Failed,
    }
}

/// A file of the folder is read to its end, one that is not there reads as empty, and a directory
/// cannot be read.
#[test]
fn files_are_read(rt: HostRuntime) {
    let alloc = rt.alloc();
    assert!(rt; fs::write(&rt, "plans.csv", "p1\n").is_ok());
    assert!(rt; fs::create_dir(&rt, "links.csv").is_ok());
    let mut inputs = FileInputs::new(&rt);
    assert!(rt; is_read(alloc, &mut inputs, InFile::Plans, b"p1\n"));
    assert!(rt; is_read(alloc, &mut inputs, InFile::Nodes, b""));
    assert!(rt; is_unread(alloc, &mut inputs, InFile::Links));
    assert!(rt; fs::remove_dir(&rt, "links.csv").is_ok());
    assert!(rt; fs::remove_file(&rt, "plans.csv").is_ok());
}

/// Whether a text is written to a file behind what stands there.
fn is_written(outputs: &mut FileOutputs<'_, HostRuntime>, file: OutFile, text: &[u8]) -> bool {
    write_whole(outputs, file, text).is_ok()
}

/// Whether a file of the folder has just this text.
fn has_text(rt: &HostRuntime, name: &str, text: &str) -> bool {
    match fs::read_to_string(rt, name) {
        Ok(read) => read.as_str() == text,
        Err(_) => false,
    }
}

/// A file is emptied at the first write to it, and grows at the later ones; a directory cannot be
/// written.
#[test]
fn files_are_written(rt: HostRuntime) {
    assert!(rt; fs::write(&rt, "events.csv", "old").is_ok());
    assert!(rt; fs::create_dir(&rt, "scores.csv").is_ok());
    let mut outputs = FileOutputs::new(&rt);
    assert!(rt; is_written(&mut outputs, OutFile::Events, b"a\n"));
    assert!(rt; is_written(&mut outputs, OutFile::Events, b"b\n"));
    assert!(rt; has_text(&rt, "events.csv", "a\nb\n"));
    assert!(rt; !is_written(&mut outputs, OutFile::Scores, b"a\n"));
    assert!(rt; fs::remove_dir(&rt, "scores.csv").is_ok());
    assert!(rt; fs::remove_file(&rt, "events.csv").is_ok());
}
