//! A promise on the rings, from which alone the gatherer knows what it will get.

ghost use Rattle.std.specs.Prelude.{◌≡◌, [], ◌∷◌, length, IfSome};
ghost use Rattle.event_pipe.specs.{Pieces.label, Pipes.parts, Pipes.gathered, Pipes.sent};

use crate::pieces::event_of;
use event_pipe::{Gather, Gathered, Offer, Piece, Sender, pipe};
use events::Rows;
use rtrb::Protocol;
use std::alloc::Global;
use std::thread::{Threads, join};

/// Each piece has as many events as pieces were sent before it, its label among them.
#[derive(Clone, Copy)]
struct Growing;

impl Protocol<Piece> for Growing {
    ghost allows = { λ before x. length x.events ≡ length before };
}

/// A piece with one event.
fn one_event(alloc: Global) -> Option<Piece>
    ensures { IfSome result (λ x. length x.events ≡ 1) }
{
    let mut rows = Vec::new(alloc);
    match rows.push(event_of((7, 0))) {
        Ok(()) => Some(Piece {
            partition: 0,
            events: Rows { rows },
        }),
        Err(_) => None,
    }
}

/// Whether the first piece behind the label is sent.
fn sends_one(alloc: Global, sender: &mut Sender<Growing>) -> bool
    requires { length (sent sender.old) ≡ 1 }
{
    let Some(piece) = one_event(alloc) else {
        return false;
    };
    match sender.offer(piece) {
        Offer::Sent => true,
        Offer::Full(_) => false,
    }
}

/// How many events the first piece behind the label has: one, as the promise says.
fn first_count(alloc: Global, gather: &mut Gather<Growing>) -> Option<usize>
    requires one { parts gather.old ≡ 1 }
    requires label { gathered gather.old 0 ≡ label 0 ∷ [] }
    ensures { IfSome result (λ n. n ≡ 1) }
{
    match gather.next(alloc) {
        Ok(Gathered::Pieces(lists)) => Some(lists[0].len()),
        _ => None,
    }
}

/// What one thread sends another one gathers, and finds it as promised.
fn keeps_its_promise<R: Threads>(rt: &R, alloc: Global) -> bool {
    let Ok((Rows { rows: mut senders }, mut gather)) = pipe::<Growing>(alloc, 1, 2) else {
        return false;
    };
    let sender = &mut senders[0];
    if !sends_one(alloc, sender) {
        return false;
    }
    let (count, _) = join(
        rt,
        move || -> Option<usize>
            requires { (parts gather ≡ 1) × (gathered gather 0 ≡ label 0 ∷ []) }
        { first_count(alloc, &mut gather) },
        || true,
    );
    count == Some(1)
}

#[test]
fn a_piece_is_as_its_ring_promises(rt: HostRuntime) {
    assert!(rt; keeps_its_promise(&rt, rt.alloc()));
}
