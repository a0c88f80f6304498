// Boards with all their members, which run on one thread or on several, and are joined.
ghost use Rattle.std.specs.Prelude.{◌≡◌, ◌<◌, ◌≤◌, [], ◌∷◌, false, IfOk, length};
ghost use Rattle.cells.specs.{Pairs.ArePairs, Ports.IsHub, Ports.count_of, Ports.done_of, Ports.had_port, Rule.contains};
ghost use Rattle.cell_tests.specs.Members.{AreMembers, IsMember, IsTestBoard, IsTrial, KeepsMembers};

use crate::members::{Member, Tally, Trial};
use crate::numbers::Numbers;
use crate::seconds::second;
use cells::{Board, Hub};
use std::alloc::{AllocError, Global};
use std::thread::{Threads, for_each_chunk_mut, yield_now};

/// The turns after which a thread gives up.
const MOST_TURNS: u32 = 100_000_000;

fn new_member(
    alloc: Global,
    board: &Board<Numbers>,
    hub: &mut Hub<Numbers>,
    p: u32,
) -> Result<Member, AllocError>
    requires hub { IsHub board.now hub.old }
    requires below { p < count_of board.now }
    requires first { contains (had_port hub.old) p ≡ false }
    ensures hub { IfOk result (λ _. IsHub board.now hub.new × (had_port hub.new ≡ p ∷ had_port hub.old)) }
    ensures member { IfOk result (λ m. IsMember board.now m) }
{
    let port = hub.split(alloc, board, p)?;
    Ok(Member {
        port,
        tally: Tally::new(),
        is_resting: true,
    })
}

/// A member for each partition of a board.
fn all_members(
    alloc: Global,
    board: &Board<Numbers>,
    hub: &mut Hub<Numbers>,
    count: u32,
) -> Result<Vec<Member>, AllocError>
    requires count { count_of board.now ≡ count }
    requires hub { IsHub board.now hub.old }
    requires first { had_port hub.old ≡ [] }
    ensures { IfOk result (λ v. IsHub board.now hub.new × AreMembers board.now v.items) }
{
    let mut members = Vec::new(alloc);
    for p in 0..count {
        members.push(new_member(alloc, board, hub, p)?)?;
    }
    Ok(members)
}

/// A board of run 5 with all its members.
pub(crate) fn new_trial(
    alloc: Global,
    count: u32,
    pairs: &[(u32, u32, u32, u32)],
) -> Result<Trial, AllocError>
    requires count { (1 ≤ count) × (count ≤ 64) }
    requires pairs { ArePairs count pairs.now }
    ensures { IfOk result IsTrial }
{
    let (board, mut hub) = Board::<Numbers>::new(alloc, &5, count, pairs)?;
    let members = all_members(alloc, &board, &mut hub, count)?;
    Ok(Trial {
        board,
        hub,
        count,
        members,
    })
}

/// Does the next second of member `k` where its neighbours are ready, and answers whether it did.
pub(crate) fn step(board: &Board<Numbers>, members: &mut [Member], k: usize) -> bool
    requires board { IsTestBoard board.now }
    requires members { AreMembers board.now members.old }
    ensures { AreMembers board.now members.new }
{
    if k >= members.len() {
        return false;
    }
    second(board, &mut members[k])
}

/// What came of a turn of some members: whether one did a second, and whether one had to wait.
#[derive(Clone, Copy, Drop)]
struct Progress {
    moved: bool,
    waited: bool,
}

/// Gives each member that has done fewer than `until` seconds a turn.
fn turn(board: &Board<Numbers>, members: &mut [Member], until: u32) -> Progress
    requires board { IsTestBoard board.now }
    requires members { AreMembers board.now members.old }
    ensures { AreMembers board.now members.new }
{
    let mut progress = Progress {
        moved: false,
        waited: false,
    };
    for k in 0..members.len() {
        if members[k].port.done() < until {
            let moved = step(board, members, k);
            progress.moved |= moved;
            progress.waited |= !moved;
        }
    }
    progress
}

/// Turns until all members have done `until` seconds, or the limit is met. Where nobody gets on, other threads are let run now and then,
/// so that few processors suffice.
fn turns(board: &Board<Numbers>, members: &mut [Member], until: u32)
    requires board { IsTestBoard board.now }
    requires members { AreMembers board.now members.old }
    ensures { KeepsMembers board.now members.old members.new }
{
    let mut fruitless = 0u32;
    for _ in 0..MOST_TURNS {
        let progress = turn(board, members, until);
        if progress.moved {
            fruitless = 0;
        } else if progress.waited {
            fruitless = fruitless.saturating_add(1);
            if fruitless % 1_000 == 0 {
                yield_now();
            }
        } else {
            break;
        }
    }
}

/// Turns of the members in lists of `size`, each list in a thread of its own where one can be made.
fn spread<R: Threads + Sync>(
    rt: &R,
    board: &Board<Numbers>,
    members: &mut [Member],
    size: usize,
    until: u32,
)
    requires board { IsTestBoard board.now }
    requires members { AreMembers board.now members.old }
    requires size { 1 ≤ size }
    ensures { AreMembers board.now members.new }
{
    for_each_chunk_mut(
        rt,
        members,
        size,
        &|_, part: &mut [Member]|
            requires { IsTestBoard board.now × AreMembers board.now part.now }
            ensures { KeepsMembers board.entry.now part.entry.now part.exit.now }
        { turns(board, part, until) },
    );
}

/// How often partition `p` is to have taken something after so many seconds.
fn due(pairs: &[(u32, u32, u32, u32)], p: u32, seconds: u32) -> u64 {
    let mut parcels = 0u64;
    for k in 0..pairs.len() {
        let (low, high, there, back) = pairs[k];
        if low == p {
            parcels = parcels.saturating_add(u64::from(seconds.saturating_sub(back)));
        }
        if high == p {
            parcels = parcels.saturating_add(u64::from(seconds.saturating_sub(there)));
        }
    }
    parcels
}

/// Whether each member has done so many seconds and taken all that it is to have taken by then, each time what is right.
fn have_all(members: &[Member], pairs: &[(u32, u32, u32, u32)], seconds: u32) -> bool {
    for member in members {
        let tally = member.tally;
        if member.port.done() != seconds
            || tally.seconds != seconds
            || tally.taken != due(pairs, member.port.partition(), seconds)
            || tally.wrong != 0
        {
            return false;
        }
    }
    true
}

/// Joins all members and closes the board, where they are those of all partitions, in order, and hold nothing. Answers whether it did.
pub(crate) fn closes(trial: Trial) -> bool
    requires { IsTrial trial }
{
    let Trial {
        board,
        mut hub,
        count,
        mut members,
    } = trial;
    if members.len() != count as usize {
        return false;
    }
    while let Some(member) = members.pop() {
        let Member {
            port,
            tally: _,
            is_resting,
        } = member;
        if !is_resting || port.partition() as usize != members.len() {
            return false;
        }
        hub.join(&board, port);
    }
    board.close(hub);
    true
}

/// Runs partitions for so many seconds, in lists of `size` members, each list in a thread of its own where one can be made. Answers
/// whether there was memory, all came to the end, and each parcel that is to be taken by then was taken once and right.
pub(crate) fn runs<R: Threads + Sync>(
    rt: &R,
    alloc: Global,
    count: u32,
    pairs: &[(u32, u32, u32, u32)],
    size: usize,
    seconds: u32,
) -> bool
    requires count { (1 ≤ count) × (count ≤ 64) }
    requires pairs { ArePairs count pairs.now }
    requires size { 1 ≤ size }
{
    let Ok(mut trial) = new_trial(alloc, count, pairs) else {
        return false;
    };
    spread(
        rt,
        &trial.board,
        trial.members.as_mut_slice(),
        size,
        seconds,
    );
    let are_right = have_all(trial.members.as_slice(), pairs, seconds);
    closes(trial) && are_right
}
