//! How a member does its next second.

ghost use Rattle.std.specs.Prelude.{◌≡◌, ◌≢◌, ℕ, ◌+◌, ◌<◌, ◌≤◌, true, false, length, set, slice_set, unwrap_or};
ghost use Rattle.std.specs.Prelude.{OnOk, OnErr};
ghost use Rattle.cells.specs.Ports.{IsPort, SameSecond, IsUntouched, IsUnread, IsSettled, degree, neighbour, handover, handovers_of};
ghost use Rattle.cells.specs.Ports.{is_arrived, is_taken, run_of, waits, partition_of, done_of};
ghost use Rattle.cells.specs.declared.board.Handover.TheVariants.{Taken};
ghost use Rattle.step_core.specs.Views.{AreEmpty, IsHeard, Stays, in_place};
ghost use Rattle.workers.specs.Members.{IsBoardOfRun, IsMember, Rests, Goes, Turned, border_of, number_of, seconds_of, is_stopped};
ghost use Rattle.workers.specs.{Members.waits_of, Members.still_of, Parcels.right_or_none};

use crate::members::{Member, ParcelsOf, Turn};
use cells::{Board, Exchange, Look, Port};
use edge_files::Gate;
use std::alloc::AllocError;
use step_core::Part;

/// Looks at neighbour `k`, unless it was ready already, and answers whether it is far enough for the second that this port is about to do.
#[tactic(auto, using(cells::proofs::Uses::ready_still))]
fn look_at<T: Exchange>(board: &Board<T>, port: &mut Port<T>, k: usize) -> bool
    requires port { IsPort T.right board.now port.old }
    requires neighbour { k < degree port.old }
    requires untouched { IsUntouched port.old }
    ensures port { IsPort T.right board.now port.new }
    ensures untouched { IsUntouched port.new }
    ensures same { SameSecond port.old port.new }
    ensures ready { result ≡ true → (waits port.new ≡ waits port.old) × IsUnread port.new k
        × ((j : ℕ) → IsUnread port.old j → IsUnread port.new j) }
    ensures waits { result ≡ false → waits port.new ≡ waits port.old + 1 }
{
    if port.is_ready(k) {
        return true;
    }
    match port.look(board, k) {
        Look::Ready => true,
        Look::NotYet { published: _ } => false,
    }
}

/// Looks at the neighbours, and answers whether all are far enough for the second that this port is about to do.
fn look_all<T: Exchange>(board: &Board<T>, port: &mut Port<T>) -> bool
    requires port { IsPort T.right board.now port.old }
    requires untouched { IsUntouched port.old }
    ensures port { IsPort T.right board.now port.new }
    ensures untouched { IsUntouched port.new }
    ensures same { SameSecond port.old port.new }
    ensures ready { result ≡ true → (waits port.new ≡ waits port.old) × ((k : ℕ) → k < degree port.new → IsUnread port.new k) }
    ensures waits { result ≡ false → waits port.new ≡ waits port.old + 1 }
{
    for k in 0..port.neighbours().len() {
        if !look_at(board, port, k) {
            return false;
        }
    }
    true
}

/// The partition absorbs what neighbour `k` sent for this second, where something is in it.
#[tactic(auto, using(crate::proofs::Exchanging::came, crate::proofs::Exchanging::came_empty))]
fn take_from<T: Part>(
    board: &Board<ParcelsOf<T>>,
    part: &mut T,
    port: &mut Port<ParcelsOf<T>>,
    k: usize,
)
where
    T::Parcel: Send,
    requires port { IsPort (right_or_none T.nothing T.right) board.now port.old }
    requires neighbour { k < degree port.old }
    requires arrived { is_arrived (handover port.old k) ≡ true }
    requires there { k < length (T.see part.old).inbox }
    requires empty { in_place T.nothing (T.see part.old).inbox k ≡ T.nothing }
    ensures port { IsPort (right_or_none T.nothing T.right) board.now port.new }
    ensures same { SameSecond port.old port.new × (waits port.new ≡ waits port.old) }
    ensures held { handovers_of port.new ≡ slice_set (handovers_of port.old) k Taken }
    ensures heard { IsHeard T.nothing (T.right (run_of board.now)) (partition_of port.old) (done_of port.old) (border_of port.old k)
        (in_place T.nothing (T.see part.new).inbox k) }
    ensures others { (j : ℕ) → j ≢ k
        → in_place T.nothing (T.see part.new).inbox j ≡ in_place T.nothing (T.see part.old).inbox j }
    ensures places { length (T.see part.new).inbox ≡ length (T.see part.old).inbox }
    ensures outbox { (T.see part.new).outbox ≡ (T.see part.old).outbox }
    ensures number { (T.see part.new).number ≡ (T.see part.old).number }
    ensures seconds { (T.see part.new).seconds ≡ (T.see part.old).seconds }
    ensures stands { Stays T.stands part.old part.new }
{
    match port.take(board, k) {
        Some(parcel) => part.absorb(k, parcel),
        None => {}
    }
}

/// The partition absorbs what each neighbour sent for this second, if that is a second of the day.
fn take_all<T: Part>(board: &Board<ParcelsOf<T>>, part: &mut T, port: &mut Port<ParcelsOf<T>>)
where
    T::Parcel: Send,
    requires port { IsPort (right_or_none T.nothing T.right) board.now port.old }
    requires ready { (k : ℕ) → k < degree port.old → IsUnread port.old k }
    requires empty { AreEmpty T.nothing (degree port.old) (T.see part.old).inbox }
    ensures port { IsPort (right_or_none T.nothing T.right) board.now port.new }
    ensures same { SameSecond port.old port.new × (waits port.new ≡ waits port.old) }
    ensures taken { (k : ℕ) → k < degree port.new → is_taken (handover port.new k) ≡ true }
    ensures places { length (T.see part.new).inbox ≡ degree port.old }
    ensures heard { (k : ℕ) → k < degree port.old → IsHeard T.nothing (T.right (run_of board.now)) (partition_of port.old)
        (done_of port.old) (border_of port.old k) (in_place T.nothing (T.see part.new).inbox k) }
    ensures outbox { (T.see part.new).outbox ≡ (T.see part.old).outbox }
    ensures number { (T.see part.new).number ≡ (T.see part.old).number }
    ensures seconds { (T.see part.new).seconds ≡ (T.see part.old).seconds }
    ensures stands { Stays T.stands part.old part.new }
{
    for k in 0..port.neighbours().len() {
        if port.lag(k) <= port.done() {
            take_from(board, part, port, k);
        }
    }
}

/// Takes out the parcel for neighbour `k`, where something is in it.
fn take_out<T: Part>(part: &mut T, k: usize) -> Option<T::Parcel>
    requires { k < length (T.see part.old).outbox }
    ensures parcel { unwrap_or result T.nothing ≡ in_place T.nothing (T.see part.old).outbox k }
    ensures outbox { (T.see part.new).outbox ≡ set (T.see part.old).outbox k T.nothing }
    ensures inbox { (T.see part.new).inbox ≡ (T.see part.old).inbox }
    ensures number { (T.see part.new).number ≡ (T.see part.old).number }
    ensures seconds { (T.see part.new).seconds ≡ (T.see part.old).seconds }
    ensures stands { Stays T.stands part.old part.new }
{
    let parcel = part.outbox(k);
    if T::is_nothing(&parcel) {
        None
    } else {
        Some(parcel)
    }
}

/// The port gets for each neighbour what the partition sends it. Where the partition sends nothing at all, nothing is put.
fn put_all<T: Part>(board: &Board<ParcelsOf<T>>, part: &mut T, port: &mut Port<ParcelsOf<T>>)
where
    T::Parcel: Send,
    requires port { IsPort (right_or_none T.nothing T.right) board.now port.old }
    requires taken { (k : ℕ) → k < degree port.old → is_taken (handover port.old k) ≡ true }
    requires sent { (k : ℕ) → k < degree port.old → T.right (run_of board.now) (partition_of port.old) (neighbour port.old k)
        (done_of port.old) (in_place T.nothing (T.see part.old).outbox k) }
    requires places { length (T.see part.old).outbox ≡ degree port.old }
    ensures port { IsPort (right_or_none T.nothing T.right) board.now port.new }
    ensures same { SameSecond port.old port.new × (waits port.new ≡ waits port.old) }
    ensures settled { IsSettled (right_or_none T.nothing T.right) board.now port.new }
    ensures gone { AreEmpty T.nothing (degree port.old) (T.see part.new).outbox }
    ensures inbox { (T.see part.new).inbox ≡ (T.see part.old).inbox }
    ensures number { (T.see part.new).number ≡ (T.see part.old).number }
    ensures seconds { (T.see part.new).seconds ≡ (T.see part.old).seconds }
    ensures stands { Stays T.stands part.old part.new }
{
    if part.next_parcel(0).is_none() {
        return;
    }
    for k in 0..port.neighbours().len() {
        let parcel = take_out(part, k);
        port.put(board, k, parcel);
    }
}

/// A member does its next second, for which all neighbours are far enough: it takes what they sent, does the second, puts what it sends and
/// publishes.
///
/// # Errors
///
/// `AllocError`: there is no memory for the second. Nothing was published then.
#[tactic(auto, using(crate::proofs::Resting::all_empty))]
fn do_second<T: Part>(
    run: &T::Run,
    board: &Board<ParcelsOf<T>>,
    member: &mut Member<T>,
) -> Result<(), AllocError>
where
    T::Parcel: Send,
    requires board { IsBoardOfRun T.net T.borders T.nothing T.right run.now board.now }
    requires rests { Rests (T.net run.now).end T.borders T.nothing T.see T.stands T.right run.now board.now member.old }
    requires before_end { seconds_of member.old < (T.net run.now).end }
    requires ready { (k : ℕ) → k < degree member.old.port → IsUnread member.old.port k }
    ensures rests { OnOk result (Rests (T.net run.now).end T.borders T.nothing T.see T.stands T.right run.now board.now member.new) }
    ensures done { OnOk result ((seconds_of member.new ≡ seconds_of member.old + 1) × (waits_of member.new ≡ waits_of member.old)
        × (still_of member.new ≡ waits_of member.old)) }
    ensures refused { OnErr result ((seconds_of member.new ≡ seconds_of member.old) × T.spent member.new.part) }
    ensures same { (number_of member.new ≡ number_of member.old) × (is_stopped member.new ≡ is_stopped member.old) }
{
    take_all(board, &mut member.part, &mut member.port);
    member.part.second(run)?;
    put_all(board, &mut member.part, &mut member.port);
    member.port.publish(board);
    Ok(())
}

/// A member does its next second, if it has one left before second `until` and all neighbours are far enough. The gate is passed once they
/// are.
#[tactic(auto, using(crate::proofs::Resting::looked, crate::proofs::Resting::goes_on, crate::proofs::Resting::halts))]
pub(crate) fn turn<T: Part, G: Gate>(
    gate: &G,
    run: &T::Run,
    board: &Board<ParcelsOf<T>>,
    until: u32,
    member: &mut Member<T>,
) -> Turn
where
    T::Parcel: Send,
    requires in_run { until ≤ (T.net run.now).end }
    requires board { IsBoardOfRun T.net T.borders T.nothing T.right run.now board.now }
    requires member { IsMember until T.borders T.nothing T.see T.stands T.spent T.right run.now board.now member.old }
    ensures member { IsMember until T.borders T.nothing T.see T.stands T.spent T.right run.now board.now member.new }
    ensures goes { Goes member.old member.new }
    ensures turned { Turned until member.old member.new result }
{
    if member.stopped {
        return Turn::Stopped;
    }
    if member.port.done() >= until {
        return Turn::Ended;
    }
    if !look_all(board, &mut member.port) {
        return Turn::Waited;
    }
    gate.pass(member.port.partition(), member.port.done());
    match do_second(run, board, member) {
        Ok(()) => Turn::Moved,
        Err(_) => {
            member.stopped = true;
            Turn::Stopped
        }
    }
}
