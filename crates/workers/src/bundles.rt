//! How the members of a bundle are run, in turn.

ghost use Rattle.std.specs.Prelude.{◌≤◌};
ghost use Rattle.workers.specs.Members.{IsBoardOfRun, AreMembers, Ran, Rounded};

use crate::members::{Bundle, Member, ParcelsOf, Round, Turn};
use crate::seconds::turn;
use cells::Board;
use edge_files::Gate;
use std::thread::yield_now;
use step_core::Part;

/// The rounds in a row in which no member moved, before the members are given back.
pub(crate) const PATIENCE: u32 = 1_000_000;

/// The rounds in a row in which no member moved, before the thread offers its processor to others, and again after as many. Each offer is
/// a call of the system.
const SPINS: u32 = 40;

/// Gives each member a turn.
fn round<T: Part, G: Gate>(
    gate: &G,
    run: &T::Run,
    board: &Board<ParcelsOf<T>>,
    until: u32,
    members: &mut [Member<T>],
) -> Round
where
    T::Parcel: Send,
    requires in_run { until ≤ (T.net run.now).end }
    requires board { IsBoardOfRun T.net T.borders T.nothing T.right run.now board.now }
    requires members { AreMembers until T.borders T.nothing T.see T.stands T.spent T.right run.now board.now members.old }
    ensures { Rounded until T.borders T.nothing T.see T.stands T.spent T.right run.now board.now members.old members.new result }
{
    let mut stopped = false;
    let mut moved = false;
    let mut waited = false;
    for k in 0..members.len() {
        match turn(gate, run, board, until, &mut members[k]) {
            Turn::Ended => {}
            Turn::Stopped => stopped = true,
            Turn::Waited => waited = true,
            Turn::Moved => moved = true,
        }
    }
    if stopped {
        Round::OneStopped
    } else if moved {
        Round::SomeMoved
    } else if waited {
        Round::AllWaited
    } else {
        Round::AllEnded
    }
}

/// Runs the members to a second, as `run_bundle` does to the end. Where no member moves for long, the thread offers its processor to others
/// now and then.
pub(crate) fn run_members<T: Part, G: Gate>(
    gate: &G,
    run: &T::Run,
    board: &Board<ParcelsOf<T>>,
    until: u32,
    members: &mut [Member<T>],
)
where
    T::Parcel: Send,
    requires in_run { until ≤ (T.net run.now).end }
    requires board { IsBoardOfRun T.net T.borders T.nothing T.right run.now board.now }
    requires members { AreMembers until T.borders T.nothing T.see T.stands T.spent T.right run.now board.now members.old }
    ensures { Ran until T.borders T.nothing T.see T.stands T.spent T.right run.now board.now members.old members.new }
{
    let mut idle = 0;
    while idle < PATIENCE {
        match round(gate, run, board, until, members) {
            Round::AllEnded => return,
            Round::OneStopped => return,
            Round::AllWaited => {
                idle += 1;
                if idle % SPINS == 0 {
                    yield_now();
                }
            }
            Round::SomeMoved => idle = 0,
        }
    }
}

/// Runs the members of a bundle until all have done all their seconds, some member found no memory, or each that has seconds left met
/// 1,000,000 looks that were not ready, all of them in this call and since it last published a second. The same members come back, in
/// order, each at no fewer seconds, whatever other threads do with theirs.
pub fn run_bundle<T: Part, G: Gate>(
    gate: &G,
    run: &T::Run,
    board: &Board<ParcelsOf<T>>,
    mut bundle: Bundle<T>,
) -> Bundle<T>
where
    T::Parcel: Send,
    requires board { IsBoardOfRun T.net T.borders T.nothing T.right run.now board.now }
    requires members { AreMembers (T.net run.now).end T.borders T.nothing T.see T.stands T.spent T.right run.now board.now
        bundle.members.items }
    ensures { Ran (T.net run.now).end T.borders T.nothing T.see T.stands T.spent T.right run.now board.now bundle.members.items
        result.members.items }
{
    run_members(gate, run, board, T::end(run), bundle.members.as_mut_slice());
    bundle
}
