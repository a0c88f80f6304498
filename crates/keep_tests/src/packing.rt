//! How kept rows are packed.

use crate::tables::{ONE, are_rows, rows_of};
use keep_sql::{pack, unpack};
use std::alloc::Global;

/// The packing of one row, byte by byte.
static PACKED: &[u8] =
    b"\x04\0\0\0\0\0\0\0otto\x02\0\0\0\x01\x01\0\0\0\0\0\0\0\x80\0\0\0\0\0\0\0\0";

fn packs(alloc: Global) -> bool {
    match pack(alloc, &rows_of(alloc, &ONE)) {
        Ok(bytes) => bytes.as_slice() == PACKED,
        Err(_) => false,
    }
}

/// Whether bytes are unpacked to the rows of the table of one.
fn is_unpacked(alloc: Global, bytes: &[u8]) -> bool {
    match unpack(alloc, bytes) {
        Ok(Some(rows)) => are_rows(&rows, &ONE),
        _ => false,
    }
}

/// Whether bytes are the packing of no rows.
fn is_no_packing(alloc: Global, bytes: &[u8]) -> bool {
    matches!(unpack(alloc, bytes), Ok(None))
}

/// Whether no bytes are the packing of no rows.
fn is_empty_packing(alloc: Global) -> bool {
    match unpack(alloc, &[]) {
        Ok(Some(rows)) => rows.is_empty(),
        _ => false,
    }
}

#[test]
fn packs_and_unpacks(rt: HostRuntime) {
    let alloc = rt.alloc();
    assert!(rt; packs(alloc));
    assert!(rt; is_unpacked(alloc, PACKED));
    assert!(rt; is_no_packing(alloc, &[7]));
    assert!(rt; is_no_packing(alloc, &PACKED[1..]));
    assert!(rt; is_empty_packing(alloc));
}
