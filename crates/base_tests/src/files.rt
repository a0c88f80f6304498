//! Whole reads and writes of files in memory.

use edge_files::{
    Failed, InFile, Inputs, MemoryInputs, MemoryOutputs, OutFile, Outputs, ReadStop, SureInputs,
    SureOutputs, read_whole, write_whole,
};
use std::alloc::Global;

/// So many bytes, each other than the one before.
fn counted(alloc: Global, count: usize) -> Vec<u8> {
    let mut bytes = Vec::new(alloc);
    for place in 0..count {
        let _ = bytes.push((place % 251) as u8);
    }
    bytes
}

/// A file with these bytes beside another one, where the call of this number fails.
fn inputs_of(alloc: Global, bytes: &[u8], failing: u64) -> MemoryInputs {
    let mut inputs = MemoryInputs::new(alloc);
    let _ = inputs.put(InFile::Links, b"other");
    let _ = inputs.put(InFile::Plans, bytes);
    let _ = inputs.fail_at(failing);
    inputs
}

/// Whether the other file is as it was.
fn is_untouched(inputs: &mut MemoryInputs) -> bool {
    let mut three = [0; 3];
    inputs.read(InFile::Links, &mut three) == Ok(3) && three.as_slice() == b"oth".as_slice()
}

/// Whether reading a file of so many bytes within a limit ends so, where the call of this number fails.
fn ends_so(alloc: Global, count: usize, limit: u64, failing: u64, stop: Option<ReadStop>) -> bool {
    let bytes = counted(alloc, count);
    let mut inputs = inputs_of(alloc, &bytes, failing);
    let is_so = match read_whole(alloc, &mut inputs, InFile::Plans, limit) {
        Ok(read) => stop.is_none() && read.as_slice() == bytes.as_slice(),
        Err(why) => stop == Some(why),
    };
    is_so && is_untouched(&mut inputs)
}

/// Reads: the bytes of the file, the limit, the call that fails or 0, and what stops the read.
static READS: [(usize, u64, u64, Option<ReadStop>); 11] = [
    (0, 0, 0, None),
    (1, 0, 0, Some(ReadStop::TooLong)),
    (3, 2, 0, Some(ReadStop::TooLong)),
    (3, 3, 0, None),
    (3, 4, 0, None),
    (3, 3, 1, Some(ReadStop::Failed)),
    (3, 3, 2, Some(ReadStop::Failed)),
    (140_000, 139_999, 0, Some(ReadStop::TooLong)),
    (140_000, 140_000, 0, None),
    (140_000, 140_000, 3, Some(ReadStop::Failed)),
    (140_000, 140_000, 4, Some(ReadStop::Failed)),
];

/// The first of these reads that ends otherwise, or their number.
fn first_read(alloc: Global) -> usize {
    for (place, &(count, limit, failing, stop)) in READS.iter().enumerate() {
        if !ends_so(alloc, count, limit, failing, stop) {
            return place;
        }
    }
    READS.len()
}

/// Whether what was put last into a file is read.
fn is_replaced(alloc: Global) -> bool {
    let mut sure = SureInputs::new(alloc);
    let is_put = sure.put(InFile::Nodes, b"ab").is_ok() && sure.put(InFile::Nodes, b"cde").is_ok();
    match read_whole(alloc, &mut sure, InFile::Nodes, 3) {
        Ok(read) => is_put && read.as_slice() == b"cde".as_slice(),
        Err(_) => false,
    }
}

#[test]
fn reads_whole_files(rt: HostRuntime) {
    assert_eq!(rt; first_read(rt.alloc()), 11);
    assert!(rt; is_replaced(rt.alloc()));
}

/// Outputs with this room, of which the call of this number fails.
fn outputs_of(alloc: Global, room: Option<u64>, failing: u64) -> MemoryOutputs {
    let mut outputs = MemoryOutputs::new(alloc);
    let _ = outputs.fail_at(failing);
    if let Some(total) = room {
        outputs.room(total);
    }
    outputs
}

/// Whether of a piece of five bytes just this front is written, behind an empty piece.
fn is_written(outputs: &mut MemoryOutputs, front: &str) -> bool {
    let is_empty_done = write_whole(outputs, OutFile::Scores, b"").is_ok();
    let is_done = write_whole(outputs, OutFile::Scores, b"abcde").is_ok();
    is_empty_done
        && is_done == (front.len() == 5)
        && outputs.written(OutFile::Scores) == front.as_bytes()
        && outputs.written(OutFile::Events).is_empty()
}

/// Writes: the room, the call that fails or 0, and the front that is written.
static WRITES: [(Option<u64>, u64, &str); 7] = [
    (None, 0, "abcde"),
    (Some(5), 0, "abcde"),
    (Some(3), 0, "abc"),
    (Some(3), 2, "abc"),
    (Some(0), 0, ""),
    (None, 1, ""),
    (None, 2, "abcde"),
];

/// The first of these writes that ends otherwise, or their number.
fn first_written(alloc: Global) -> usize {
    for (place, &(room, failing, front)) in WRITES.iter().enumerate() {
        if !is_written(&mut outputs_of(alloc, room, failing), front) {
            return place;
        }
    }
    WRITES.len()
}

/// Whether a room of three bytes is one over all files.
fn is_shared(alloc: Global) -> bool {
    let mut outputs = outputs_of(alloc, Some(3), 0);
    outputs.write(OutFile::Events, b"ab") == Ok(2)
        && outputs.write(OutFile::Report, b"cd") == Ok(1)
        && outputs.write(OutFile::Report, b"d") == Err(Failed)
        && outputs.written(OutFile::Report) == b"c".as_slice()
}

#[test]
fn writes_fronts(rt: HostRuntime) {
    assert_eq!(rt; first_written(rt.alloc()), 7);
    assert!(rt; is_shared(rt.alloc()));
    assert_eq!(rt; SureOutputs::new().write(OutFile::Report, b"abc"), Ok(3));
}
