// Two partitions, second by second on one thread, and on two threads.
ghost use Rattle.std.specs.Prelude.{◌≡◌, ◌≤◌};
ghost use Rattle.cell_tests.specs.Members.{AreMembers, IsMember, IsTestBoard};

use crate::members::Member;
use crate::numbers::Numbers;
use crate::seconds::look_at;
use crate::trials::{closes, new_trial, runs, step};
use cells::{Board, Look};
use std::alloc::Global;

/// Whether member `k` is partition `k`, about to do second 0, with one neighbour, the other partition, and this lag from it.
fn begins(board: &Board<Numbers>, members: &[Member], k: usize, lag: u32) -> bool
    requires members { AreMembers board.now members.now }
{
    if k >= members.len() {
        return false;
    }
    let port = &members[k].port;
    port.done() == 0
        && port.partition() as usize == k
        && port.neighbours().len() == 1
        && port.neighbours()[0] as usize + k == 1
        && port.lag(0) == lag
}

/// Whether a member is not ready for its next second, and sees that its first neighbour has published so many.
fn sees(board: &Board<Numbers>, member: &mut Member, seconds: u32) -> bool
    requires member { IsMember board.now member.old }
    ensures { IsMember board.now member.new }
{
    member.is_resting = false;
    if member.port.neighbours().is_empty() {
        return false;
    }
    match look_at(board, &mut member.port, 0) {
        Look::Ready => false,
        Look::NotYet { published } => published == seconds,
    }
}

/// The same of member `k`.
fn waits(board: &Board<Numbers>, members: &mut [Member], k: usize, seconds: u32) -> bool
    requires members { AreMembers board.now members.old }
    ensures { AreMembers board.now members.new }
{
    if k >= members.len() {
        return false;
    }
    sees(board, &mut members[k], seconds)
}

/// Does at most `most` seconds of member `k`, as long as it is ready.
fn steps(board: &Board<Numbers>, members: &mut [Member], k: usize, most: u32)
    requires board { IsTestBoard board.now }
    requires members { AreMembers board.now members.old }
    ensures { AreMembers board.now members.new }
{
    for _ in 0..most {
        if !step(board, members, k) {
            break;
        }
    }
}

/// Whether member `k` has done so many seconds, and this was the last parcel that it took.
fn took(members: &[Member], k: usize, done: u32, last: u64) -> bool {
    k < members.len() && members[k].port.done() == done && members[k].tally.last == last
}

/// What a member does, and what is so of it then.
#[derive(Clone, Copy, Drop)]
struct Act {
    /// Which member it is.
    member: usize,
    /// The seconds that it does, unless it has to wait before.
    most: u32,
    /// The seconds that it has done then.
    done: u32,
    /// The last parcel that it has taken, 0 for none.
    last: u64,
    /// Where it has to wait, the seconds that it sees its neighbour to have published.
    sees: Option<u32>,
}

/// The first seconds with lags of 1: partition 1 does one and has to wait for partition 0; then each does one, and one more.
static FIRST_SECONDS: [Act; 4] = [
    Act {
        member: 1,
        most: 100,
        done: 1,
        last: 0,
        sees: Some(0),
    },
    Act {
        member: 0,
        most: 1,
        done: 1,
        last: 0,
        sees: None,
    },
    Act {
        member: 1,
        most: 1,
        done: 2,
        last: 5_000_000,
        sees: None,
    },
    Act {
        member: 0,
        most: 1,
        done: 2,
        last: 5_010_000,
        sees: None,
    },
];

/// With lags of 10 to partition 1 and 20 to partition 0: from the start each does as many seconds as the lag lets it, and has to wait; then
/// each does one more. In second 10 partition 1 sends nothing, so that partition 0 has taken the parcel of second 9 last.
static AHEAD: [Act; 4] = [
    Act {
        member: 1,
        most: 100,
        done: 10,
        last: 0,
        sees: Some(0),
    },
    Act {
        member: 0,
        most: 100,
        done: 30,
        last: 5_010_009,
        sees: Some(10),
    },
    Act {
        member: 1,
        most: 1,
        done: 11,
        last: 5_000_000,
        sees: None,
    },
    Act {
        member: 0,
        most: 1,
        done: 31,
        last: 5_010_009,
        sees: None,
    },
];

/// Has a member act, and answers whether all is then so.
fn acts(board: &Board<Numbers>, members: &mut [Member], act: Act) -> bool
    requires board { IsTestBoard board.now }
    requires members { AreMembers board.now members.old }
    ensures { AreMembers board.now members.new }
{
    steps(board, members, act.member, act.most);
    if !took(members, act.member, act.done, act.last) {
        return false;
    }
    match act.sees {
        None => true,
        Some(seconds) => waits(board, members, act.member, seconds),
    }
}

/// Whether the members begin as two partitions with these lags, and act so in turn.
fn act_all(
    board: &Board<Numbers>,
    members: &mut [Member],
    there: u32,
    back: u32,
    all: &[Act],
) -> bool
    requires board { IsTestBoard board.now }
    requires members { AreMembers board.now members.old }
    ensures { AreMembers board.now members.new }
{
    if !begins(board, members, 0, back) || !begins(board, members, 1, there) {
        return false;
    }
    for act in all {
        if !acts(board, members, *act) {
            return false;
        }
    }
    true
}

/// Two partitions with these lags, from partition 0 to 1 and back, which act so.
fn two(alloc: Global, there: u32, back: u32, all: &[Act]) -> bool
    requires there { (1 ≤ there) × (there ≤ 32) }
    requires back { (1 ≤ back) × (back ≤ 32) }
{
    let Ok(mut trial) = new_trial(alloc, 2, &[(0, 1, there, back)]) else {
        return false;
    };
    let are_right = act_all(&trial.board, trial.members.as_mut_slice(), there, back, all);
    closes(trial) && are_right
}

#[test]
fn first_two_seconds(rt: HostRuntime) {
    assert!(rt; two(rt.alloc(), 1, 1, &FIRST_SECONDS));
}

#[test]
fn lags_let_run_ahead(rt: HostRuntime) {
    assert!(rt; two(rt.alloc(), 10, 20, &AHEAD));
}

#[test]
fn two_threads_with_lags_of_one(rt: HostRuntime) {
    assert!(rt; runs(&rt, rt.alloc(), 2, &[(0, 1, 1, 1)], 1, 1000));
}

#[test]
fn two_threads_with_lags_of_10_and_20(rt: HostRuntime) {
    assert!(rt; runs(&rt, rt.alloc(), 2, &[(0, 1, 10, 20)], 1, 1000));
}
