//! Two partitions, and room for one piece of each.

use crate::pieces::{NORTH, SOUTH, Sketch, are, gives_back, piece_of, sends};
use event_pipe::{Gather, Gathered, Sender, pipe};
use events::{EventList, Rows};
use rtrb::AnyItems;
use std::alloc::Global;

/// Two senders, by the numbers of their partitions, and who gathers of them; none where memory is wanting.
fn two_parts(alloc: Global) -> Option<(Sender<AnyItems>, Sender<AnyItems>, Gather<AnyItems>)> {
    let Ok((Rows { rows: mut senders }, gather)) = pipe::<AnyItems>(alloc, 2, 1) else {
        return None;
    };
    let (Some(south), Some(north)) = (senders.pop(), senders.pop()) else {
        return None;
    };
    Some((north, south, gather))
}

/// Whether these are the events of two partitions.
fn are_both(lists: &[EventList], north: &[Sketch], south: &[Sketch]) -> bool {
    if lists.len() != 2 {
        return false;
    }
    let first = &lists[0];
    let second = &lists[1];
    are(&first.rows, north) && are(&second.rows, south)
}

/// Whether gathering gives these events of two partitions.
pub(crate) fn gathers(
    alloc: Global,
    gather: &mut Gather<AnyItems>,
    north: &[Sketch],
    south: &[Sketch],
) -> bool {
    match gather.next(alloc) {
        Ok(Gathered::Pieces(lists)) => are_both(&lists, north, south),
        _ => false,
    }
}

/// Whether the gatherer is short of a piece of this partition.
fn is_short_of(alloc: Global, gather: &mut Gather<AnyItems>, number: u32) -> bool {
    match gather.next(alloc) {
        Ok(Gathered::Short { partition }) => partition == number,
        _ => false,
    }
}

/// The second piece of a partition finds no place, and comes back whole.
fn is_full_after_one(alloc: Global) -> bool {
    let Some((mut north, _south, gather)) = two_parts(alloc) else {
        return false;
    };
    let sent = sends(&mut north, piece_of(alloc, 0, &NORTH));
    let back = gives_back(&mut north, piece_of(alloc, 0, &SOUTH), 0, &SOUTH);
    drop(gather);
    sent && back
}

/// While only the first partition has sent, the second one is short; and in the beginning the first one is, although each ring began with
/// a label.
fn is_short_of_the_second(alloc: Global) -> bool {
    let Some((mut north, _south, mut gather)) = two_parts(alloc) else {
        return false;
    };
    let first = is_short_of(alloc, &mut gather, 0);
    let sent = sends(&mut north, piece_of(alloc, 0, &NORTH));
    first && sent && is_short_of(alloc, &mut gather, 1)
}

/// Once both have sent, what each sent is given by its number, whoever sent first; and then nothing is left.
fn gathers_both(alloc: Global) -> bool {
    let Some((mut north, mut south, mut gather)) = two_parts(alloc) else {
        return false;
    };
    let second = sends(&mut south, piece_of(alloc, 1, &SOUTH));
    let first = sends(&mut north, piece_of(alloc, 0, &NORTH));
    first
        && second
        && gathers(alloc, &mut gather, &NORTH, &SOUTH)
        && is_short_of(alloc, &mut gather, 0)
}

/// What was gathered leaves its place to the next piece, which is gathered behind it.
fn has_room_again(alloc: Global) -> bool {
    let Some((mut north, mut south, mut gather)) = two_parts(alloc) else {
        return false;
    };
    let first = sends(&mut north, piece_of(alloc, 0, &NORTH));
    let second = sends(&mut south, piece_of(alloc, 1, &SOUTH));
    let gathered = gathers(alloc, &mut gather, &NORTH, &SOUTH);
    let again = sends(&mut north, piece_of(alloc, 0, &SOUTH));
    let none = sends(&mut south, piece_of(alloc, 1, &[]));
    first && second && gathered && again && none && gathers(alloc, &mut gather, &SOUTH, &[])
}

/// A partition is missed once its sender is gone, and not before.
fn is_missed(alloc: Global) -> bool {
    let Some((north, south, mut gather)) = two_parts(alloc) else {
        return false;
    };
    let before = gather.is_abandoned();
    drop(south);
    let after = gather.is_abandoned();
    drop(north);
    !before && after
}

#[test]
fn an_offer_to_a_full_ring_comes_back(rt: HostRuntime) {
    assert!(rt; is_full_after_one(rt.alloc()));
}

#[test]
fn a_partition_that_has_sent_nothing_is_short(rt: HostRuntime) {
    assert!(rt; is_short_of_the_second(rt.alloc()));
}

#[test]
fn what_two_partitions_sent_is_gathered(rt: HostRuntime) {
    assert!(rt; gathers_both(rt.alloc()));
}

#[test]
fn a_gathered_piece_leaves_its_place(rt: HostRuntime) {
    assert!(rt; has_room_again(rt.alloc()));
}

#[test]
fn a_partition_whose_sender_is_gone_is_missed(rt: HostRuntime) {
    assert!(rt; is_missed(rt.alloc()));
}
