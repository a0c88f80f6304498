// How a port with any number of neighbours does a second.
ghost use Rattle.std.specs.Prelude.{◌≡◌, ℕ, ◌+◌, ◌<◌, true, if◌then◌else◌};
ghost use Rattle.cells.specs.Ports.{IsPort, SameSecond, IsUntouched, IsUnread, IsSettled, degree, handover, is_taken, done_of};
ghost use Rattle.cell_tests.specs.{Members.IsMember, Members.IsTestBoard, Numbers.IsMessage, Numbers.IsNumber};

use crate::members::{Member, Tally};
use crate::numbers::Numbers;
use cells::{Board, Look, Port};

impl Tally {
    pub(crate) fn new() -> Tally {
        Tally {
            seconds: 0,
            taken: 0,
            wrong: 0,
            last: 0,
        }
    }

    /// Counts what a neighbour with this lag sent in run 5, a parcel or none. It is right where it is that of `lag` seconds ago.
    pub(crate) fn count(&mut self, sender: u32, lag: u32, parcel: Option<u64>) {
        self.taken = self.taken.saturating_add(1);
        let is_right = match self.seconds.checked_sub(lag) {
            Some(second) => is_right(sender, second, parcel),
            None => false,
        };
        if let Some(number) = parcel {
            self.last = number;
        }
        if !is_right {
            self.wrong = self.wrong.saturating_add(1);
        }
    }
}

/// Whether this is what a partition sends in a second of run 5.
fn is_right(sender: u32, second: u32, parcel: Option<u64>) -> bool {
    let is_silent = (u64::from(sender) + u64::from(second)) % 3 == 2;
    match parcel {
        Some(number) => {
            !is_silent && number == 5_000_000 + 10_000 * u64::from(sender) + u64::from(second)
        }
        None => is_silent,
    }
}

/// What a partition sends in a second of a run.
fn message(run: u64, sender: u32, second: u32) -> Option<u64>
    requires { (run < 1000) × (sender < 64) }
    ensures { IsMessage run sender second result }
{
    if (u64::from(sender) + u64::from(second)) % 3 == 2 {
        return None;
    }
    Some(1_000_000 * run + 10_000 * u64::from(sender) + u64::from(second))
}

/// Looks at neighbour `k` of a port of which nothing was taken and nothing put in this second.
pub(crate) fn look_at(board: &Board<Numbers>, port: &mut Port<Numbers>, k: usize) -> Look
    requires port { IsPort IsNumber board.now port.old }
    requires untouched { IsUntouched port.old }
    requires neighbour { k < degree port.old }
    ensures port { IsPort IsNumber board.now port.new }
    ensures untouched { IsUntouched port.new }
    ensures same { SameSecond port.old port.new }
    ensures others { (j : ℕ) → IsUnread port.old j → IsUnread port.new j }
    ensures ready { result ≡ Look.Ready → IsUnread port.new k }
{
    match port.look(board, k) {
        Look::Ready => Look::Ready,
        Look::NotYet { published } => Look::NotYet { published },
    }
}

/// Looks at all neighbours, and answers whether all are ready.
fn look_all(board: &Board<Numbers>, port: &mut Port<Numbers>) -> bool
    requires port { IsPort IsNumber board.now port.old }
    requires untouched { IsUntouched port.old }
    ensures port { IsPort IsNumber board.now port.new }
    ensures untouched { IsUntouched port.new }
    ensures same { SameSecond port.old port.new }
    ensures ready { result ≡ true → (k : ℕ) → k < degree port.new → IsUnread port.new k }
{
    for k in 0..port.neighbours().len() {
        match look_at(board, port, k) {
            Look::Ready => {}
            Look::NotYet { published: _ } => return false,
        }
    }
    true
}

/// Takes what lies in the port.
fn take_all(board: &Board<Numbers>, port: &mut Port<Numbers>, tally: &mut Tally)
    requires port { IsPort IsNumber board.now port.old }
    requires ready { (k : ℕ) → k < degree port.old → IsUnread port.old k }
    ensures port { IsPort IsNumber board.now port.new }
    ensures same { SameSecond port.old port.new }
    ensures taken { (k : ℕ) → k < degree port.new → is_taken (handover port.new k) ≡ true }
{
    for k in 0..port.neighbours().len() {
        let lag = port.lag(k);
        if lag <= port.done() {
            let sender = port.neighbours()[k];
            let parcel = port.take(board, k);
            tally.count(sender, lag, parcel);
        }
    }
}

/// Puts a parcel for each neighbour, if there is one in this second.
#[tactic(auto, using(cells::proofs::Uses::put_settles))]
fn put_all(board: &Board<Numbers>, port: &mut Port<Numbers>)
    requires port { IsPort IsNumber board.now port.old }
    requires board { IsTestBoard board.now }
    requires taken { (k : ℕ) → k < degree port.old → is_taken (handover port.old k) ≡ true }
    ensures port { IsPort IsNumber board.now port.new }
    ensures same { SameSecond port.old port.new }
    ensures settled { IsSettled IsNumber board.now port.new }
{
    let p = port.partition();
    let t = port.done();
    let Some(number) = message(5, p, t) else {
        return;
    };
    for k in 0..port.neighbours().len() {
        port.put(board, k, Some(number));
    }
}

/// Does the next second of a member where all its neighbours are ready, and answers whether it did. It does no more than 4,000,000,000.
pub(crate) fn second(board: &Board<Numbers>, member: &mut Member) -> bool
    requires board { IsTestBoard board.now }
    requires member { IsMember board.now member.old }
    ensures member { IsMember board.now member.new }
    ensures done { done_of member.new.port ≡ (if result then done_of member.old.port + 1 else done_of member.old.port) }
{
    if member.port.done() >= 4_000_000_000 {
        return false;
    }
    member.is_resting = false;
    if !look_all(board, &mut member.port) {
        return false;
    }
    take_all(board, &mut member.port, &mut member.tally);
    put_all(board, &mut member.port);
    member.port.publish(board);
    member.tally.seconds = member.tally.seconds.saturating_add(1);
    member.is_resting = true;
    true
}
