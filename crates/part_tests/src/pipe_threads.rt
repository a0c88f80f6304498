//! The ends of a pipe in threads of their own.

use crate::pieces::{NORTH, SOUTH, piece_of, sends};
use crate::pipes::gathers;
use event_pipe::pipe;
use events::Rows;
use rtrb::AnyItems;
use std::alloc::Global;
use std::thread::{Threads, join};

/// Two partitions send from two threads, and what they sent is gathered in a third one.
fn sends_from_two_threads<R: Threads>(rt: &R, alloc: Global) -> bool {
    let Ok((Rows { rows: mut senders }, mut gather)) = pipe::<AnyItems>(alloc, 2, 1) else {
        return false;
    };
    let (Some(mut south), Some(mut north)) = (senders.pop(), senders.pop()) else {
        return false;
    };
    let (first, second) = join(
        rt,
        move || sends(&mut north, piece_of(alloc, 0, &NORTH)),
        move || sends(&mut south, piece_of(alloc, 1, &SOUTH)),
    );
    let (both, _) = join(
        rt,
        move || gathers(alloc, &mut gather, &NORTH, &SOUTH),
        || true,
    );
    first && second && both
}

#[test]
fn what_two_threads_sent_a_third_one_gathers(rt: HostRuntime) {
    assert!(rt; sends_from_two_threads(&rt, rt.alloc()));
}
