//! A whole run on several threads, at once or up to one second after the other.

ghost use Rattle.std.specs.Prelude.{◌≡◌, ℕ, ◌<◌, ◌≤◌, [], length, IfOk};
ghost use Rattle.limits.specs.declared.TheConstants.{MAX_PARTITIONS};
ghost use Rattle.cells.specs.Ports.{IsHub, count_of, had_port};
ghost use Rattle.step_core.specs.{Nets.IsNet, Nets.AreBorders, Views.EachAt};
ghost use Rattle.workers.specs.Members.{IsBoardOfRun, AreMembers, AreAll, AllEnd};
ghost use Rattle.workers.specs.{Running.IsRunning, Sharing.ArePartsOf};

use crate::members::{Bundle, Member, ParcelsOf, new_board};
use crate::moving::run_to;
use crate::sharing::{parts_of, share_out};
use cells::{Board, Hub};
use edge_files::Gate;
use std::alloc::{AllocError, Global};
use std::sync::Wait;
use std::thread::Threads;
use step_core::Part;

/// All partitions of a run before their first second, by number.
///
/// # Errors
///
/// `AllocError`: there is no memory for them.
fn first_parts<T: Part>(alloc: Global, run: &T::Run) -> Result<Vec<T>, AllocError>
    ensures count { IfOk result (λ parts. length parts.items ≡ (T.net run.now).parts) }
    ensures start { IfOk result (λ parts. EachAt T.nothing T.see (T.stands run.now) 0 (λ p. length (T.borders run.now p))
        (T.net run.now).parts parts.items) }
{
    let mut parts = Vec::new(alloc);
    for number in 0..T::count(run) {
        parts.push(T::start(alloc, run, number)?)?;
    }
    Ok(parts)
}

/// The partitions of a run, which are given by number, each with its port. They are members of each run of which they are the partitions
/// before their first second.
///
/// # Errors
///
/// `AllocError`: there is no memory for their list or a port.
fn all_members<T: Part>(
    alloc: Global,
    board: &Board<ParcelsOf<T>>,
    hub: &mut Hub<ParcelsOf<T>>,
    parts: Vec<T>,
) -> Result<Vec<Member<T>>, AllocError>
where
    T::Parcel: Send,
    requires hub { IsHub board.now hub.old }
    requires first { had_port hub.old ≡ [] }
    requires many { length parts.items ≡ count_of board.now }
    requires few { length parts.items ≤ MAX_PARTITIONS }
    ensures members { IfOk result (λ v. (run : T.Run) → IsBoardOfRun T.net T.borders T.nothing T.right run board.now
        → EachAt T.nothing T.see (T.stands run) 0 (λ p. length (T.borders run p)) (length parts.items) parts.items
        → AreMembers (T.net run).end T.borders T.nothing T.see T.stands T.spent T.right run board.now v.items) }
    ensures all { IfOk result (λ v. AreAll (length parts.items) v.items) }
    ensures parts { IfOk result (λ v. ArePartsOf v.items (length parts.items) parts.items) }
    ensures new { IfOk result (λ v. AllEnd 0 v.items) }
{
    let mut members = Vec::new(alloc);
    let mut number = 0;
    for part in parts {
        members.push(Member::of(alloc, board, hub, number, part)?)?;
        number += 1;
    }
    Ok(members)
}

/// The partitions of a run on their way through it, all at the same second, and how many workers go on with them.
#[derive(Drop)]
pub struct Running<T: Part>
where
    T::Parcel: Send,
{
    pub(crate) board: Board<ParcelsOf<T>>,
    /// Those of one worker follow one another.
    pub(crate) bundle: Bundle<T>,
    pub(crate) workers: u32,
}

impl<T: Part> Running<T>
where
    T::Parcel: Send,
{
    /// The partitions of a run, which are given by number, each before its first second: it is these that run. Which worker is to get
    /// which of them goes by `loads`, as `Crew` and `run_day` say.
    ///
    /// # Errors
    ///
    /// `AllocError`: there is no memory for what is between them.
    pub fn of(
        alloc: Global,
        run: &T::Run,
        parts: Vec<T>,
        workers: u32,
        loads: &[usize],
    ) -> Result<Running<T>, AllocError>
        requires workers { 1 ≤ workers }
        requires some { 1 ≤ (T.net run.now).parts }
        requires net { IsNet (T.net run.now) }
        requires borders { (p : ℕ) → p < (T.net run.now).parts → AreBorders (T.net run.now) p (T.borders run.now p) }
        requires count { length parts.items ≡ (T.net run.now).parts }
        requires start { EachAt T.nothing T.see (T.stands run.now) 0 (λ p. length (T.borders run.now p)) (T.net run.now).parts
            parts.items }
        ensures running { IfOk result (IsRunning T.net T.borders T.nothing T.see T.stands T.spent T.right run.now 0) }
        ensures given { IfOk result (λ running. ArePartsOf running.bundle.members.items (T.net run.now).parts parts.items) }
    {
        let (board, mut hub) = new_board::<T>(alloc, run)?;
        let members = all_members(alloc, &board, &mut hub, parts)?;
        let shared = share_out(alloc, members, T::count(run), workers, loads)?;
        Ok(Running {
            board,
            bundle: Bundle { members: shared },
            workers,
        })
    }

    /// All partitions of a run as they start by themselves, before their first second.
    ///
    /// # Errors
    ///
    /// `AllocError`: there is no memory for them.
    pub fn start(
        alloc: Global,
        run: &T::Run,
        workers: u32,
        loads: &[usize],
    ) -> Result<Running<T>, AllocError>
        requires workers { 1 ≤ workers }
        requires some { 1 ≤ (T.net run.now).parts }
        requires net { IsNet (T.net run.now) }
        requires borders { (p : ℕ) → p < (T.net run.now).parts → AreBorders (T.net run.now) p (T.borders run.now p) }
        ensures { IfOk result (IsRunning T.net T.borders T.nothing T.see T.stands T.spent T.right run.now 0) }
    {
        let parts = first_parts::<T>(alloc, run)?;
        let running = Running::of(alloc, run, parts, workers, loads)?;
        Ok(running)
    }

    /// The partitions at the end of their run, by number.
    ///
    /// # Errors
    ///
    /// `AllocError`: there is no memory for their list.
    pub fn into_parts(self, alloc: Global, run: &T::Run) -> Result<Vec<T>, AllocError>
        requires { IsRunning T.net T.borders T.nothing T.see T.stands T.spent T.right run.now (T.net run.now).end self }
        ensures count { IfOk result (λ parts. length parts.items ≡ (T.net run.now).parts) }
        ensures ended { IfOk result (λ parts. EachAt T.nothing T.see (T.stands run.now) (T.net run.now).end
            (λ p. length (T.borders run.now p)) (T.net run.now).parts parts.items) }
    {
        let Running {
            board: _board,
            bundle,
            workers: _workers,
        } = self;
        parts_of(alloc, bundle.members, T::count(run))
    }
}

impl<T: Part + Send> Running<T>
where
    T::Run: Send + Sync,
    T::Parcel: Send + Sync,
{
    /// Runs them up to a second that none is beyond: all have done so many seconds then, whichever thread got on first, and no thread is
    /// left. A thread that cannot be started is no error: the caller does its work. Where workers waited long in vain, fewer of them go on
    /// from then on.
    ///
    /// # Errors
    ///
    /// `AllocError`: there was no memory for a second of a partition.
    pub fn run_until<R: Threads + Wait + Sync, G: Gate>(
        self,
        rt: &R,
        gate: &G,
        run: &T::Run,
        until: u32,
    ) -> Result<Running<T>, AllocError>
        requires in_run { until ≤ (T.net run.now).end }
        requires running { (t : ℕ) × (t ≤ until) × IsRunning T.net T.borders T.nothing T.see T.stands T.spent T.right run.now t self }
        ensures { IfOk result (IsRunning T.net T.borders T.nothing T.see T.stands T.spent T.right run.now until) }
    {
        let Running {
            board,
            bundle,
            workers,
        } = self;
        let arrived = run_to(rt, gate, run, &board, until, workers, bundle)?;
        Ok(Running {
            board,
            bundle: arrived.bundle,
            workers: arrived.workers,
        })
    }
}

/// Who computes a day.
#[derive_where(Clone, Copy)]
pub struct Crew<'a, R, G> {
    /// The threads, and the waiting.
    pub rt: &'a R,
    /// What is passed before each second of a partition.
    pub gate: &'a G,
    /// How many workers, each a thread.
    pub workers: u32,
    /// How much there is to do in each partition, by number, in any unit; 0 where none is told.
    pub loads: &'a [usize],
}

/// Runs a day on 1 to 64 threads: all partitions are at the end then, by number, and each holds and has told what it has by then by itself.
/// As far as `stands` tells what that is, neither the number of workers nor the order in which threads get on changes it. A thread that
/// cannot be started is no error: the caller does its work.
///
/// Where the number of workers divides that of the partitions, each worker gets about as much to do as any other, by how much there is to
/// do in each partition (`loads`). Else the last one has fewer partitions than the others, or none, and a list may have some that were
/// dealt to two of them. What is told there decides nothing else.
///
/// # Errors
///
/// `AllocError`: there was no memory for the start, or for a second of a partition.
pub fn run_day<T: Part + Send, R: Threads + Wait + Sync, G: Gate>(
    crew: &Crew<R, G>,
    alloc: Global,
    run: &T::Run,
) -> Result<Vec<T>, AllocError>
where
    T::Run: Send + Sync,
    T::Parcel: Send + Sync,
    requires workers { (1 ≤ crew.now.workers) × (crew.now.workers ≤ MAX_PARTITIONS) }
    requires net { IsNet (T.net run.now) }
    requires borders { (p : ℕ) → p < (T.net run.now).parts → AreBorders (T.net run.now) p (T.borders run.now p) }
    ensures count { IfOk result (λ parts. length parts.items ≡ (T.net run.now).parts) }
    ensures ended { IfOk result (λ parts. EachAt T.nothing T.see (T.stands run.now) (T.net run.now).end
        (λ p. length (T.borders run.now p)) (T.net run.now).parts parts.items) }
{
    if T::count(run) == 0 {
        return Ok(Vec::new(alloc));
    }
    let running = Running::<T>::start(alloc, run, crew.workers, crew.loads)?;
    let ended = running.run_until(crew.rt, crew.gate, run, T::end(run))?;
    let parts = ended.into_parts(alloc, run)?;
    Ok(parts)
}
