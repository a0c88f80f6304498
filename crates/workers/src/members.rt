//! The types of what runs on threads, and their start.

ghost use Rattle.std.specs.Prelude.{◌≡◌, ℕ, ◌<◌, ◌≤◌, false, [], ◌∷◌, length, IfOk, OnOk, OnErr};
ghost use Rattle.cells.specs.{Ports.IsHub, Ports.count_of, Ports.had_port, Rule.contains};
ghost use Rattle.step_core.specs.{Nets.IsNet, Nets.AreBorders, Views.IsAt};
ghost use Rattle.workers.specs.Members.{IsBoardOfRun, IsMember, number_of, seconds_of, is_stopped};

use crate::pairs::pairs_of;
use cells::{Board, Exchange, Hub, Port};
use std::alloc::{AllocError, Global};
use std::marker::PhantomData;
use std::sync::Mutex;
use step_core::Part;

/// What the partitions of a run send to one another, where `T` is a partition: its parcels, of which those are right that it calls so, and
/// none in the place of one with nothing in it. No thread gets another one's partition to see by it, so partitions need not be `Sync`.
pub struct ParcelsOf<T> {
    /// None lies in it, and nothing is locked: `Mutex` only makes it `Sync` where `T` is `Send`.
    part: PhantomData<Mutex<T>>,
}

impl<T: Part> Exchange for ParcelsOf<T>
where
    T::Parcel: Send,
{
    ghost use Rattle.workers.specs.Parcels.{right_or_none};

    type Run = T::Run;

    type Parcel = T::Parcel;

    ghost right = { right_or_none T.nothing T.right };
}

/// A partition, and its port.
#[derive(Drop)]
pub struct Member<T: Part>
where
    T::Parcel: Send,
{
    pub(crate) part: T,
    pub(crate) port: Port<ParcelsOf<T>>,
    /// Whether the partition found no memory in a second. It is of no use then.
    pub(crate) stopped: bool,
}

/// The partitions of one worker.
#[derive(Drop)]
pub struct Bundle<T: Part>
where
    T::Parcel: Send,
{
    pub members: Vec<Member<T>>,
}

/// What became of a member in its turn.
#[derive(Clone, Copy, Debug, PartialEq, Eq)]
pub(crate) enum Turn {
    /// It has done all its seconds.
    Ended,
    /// It found no memory, now or before.
    Stopped,
    /// A neighbour is not far enough for its next second.
    Waited,
    /// It did a second.
    Moved,
}

/// What the turns of all members of a bundle came to.
#[derive(Clone, Copy, Debug, PartialEq, Eq)]
pub(crate) enum Round {
    /// Each has done all its seconds.
    AllEnded,
    /// Some member found no memory.
    OneStopped,
    /// Each that has seconds left waited.
    AllWaited,
    /// Some member did a second, and none was stopped.
    SomeMoved,
}

/// The board of a run, over which its partitions hand parcels to one another, and the hub that gives each its port.
///
/// # Errors
///
/// `AllocError`: there is no memory for them.
pub fn new_board<T: Part>(
    alloc: Global,
    run: &T::Run,
) -> Result<(Board<ParcelsOf<T>>, Hub<ParcelsOf<T>>), AllocError>
where
    T::Parcel: Send,
    requires some { 1 ≤ (T.net run.now).parts }
    requires net { IsNet (T.net run.now) }
    requires borders { (p : ℕ) → p < (T.net run.now).parts → AreBorders (T.net run.now) p (T.borders run.now p) }
    ensures board { IfOk result (λ b. IsBoardOfRun T.net T.borders T.nothing T.right run.now b.0) }
    ensures hub { IfOk result (λ b. IsHub b.0 b.1 × (had_port b.1 ≡ [])) }
{
    let pairs = pairs_of::<T>(alloc, run)?;
    let (board, hub) = Board::<ParcelsOf<T>>::new(alloc, run, T::count(run), pairs.as_slice())?;
    Ok((board, hub))
}

impl<T: Part> Member<T>
where
    T::Parcel: Send,
{
    /// A partition, which is given, with its port, which it has not had yet. It is a member of each run of which it is partition `number`
    /// before its first second.
    ///
    /// # Errors
    ///
    /// `AllocError`: there is no memory for the port. The hub is then as it was.
    pub fn of(
        alloc: Global,
        board: &Board<ParcelsOf<T>>,
        hub: &mut Hub<ParcelsOf<T>>,
        number: u32,
        part: T,
    ) -> Result<Member<T>, AllocError>
        requires hub { IsHub board.now hub.old }
        requires there { number < count_of board.now }
        requires first { contains (had_port hub.old) number ≡ false }
        ensures hub { IsHub board.now hub.new }
        ensures had { OnOk result (had_port hub.new ≡ number ∷ had_port hub.old) }
        ensures refused { OnErr result (hub.new ≡ hub.old) }
        ensures given { IfOk result (λ m. m.part ≡ part) }
        ensures member { IfOk result (λ m. (run : T.Run) → IsBoardOfRun T.net T.borders T.nothing T.right run board.now
            → IsAt T.nothing T.see (T.stands run) number 0 (length (T.borders run number)) part
            → IsMember (T.net run).end T.borders T.nothing T.see T.stands T.spent T.right run board.now m) }
        ensures start { IfOk result (λ m. (number_of m ≡ number) × (seconds_of m ≡ 0) × (is_stopped m ≡ false)) }
    {
        let port = hub.split(alloc, board, number)?;
        Ok(Member {
            part,
            port,
            stopped: false,
        })
    }

    /// Partition `number` before its first second, which has had no port yet.
    ///
    /// # Errors
    ///
    /// `AllocError`: there is no memory for it. The hub is then as it was.
    pub fn start(
        alloc: Global,
        run: &T::Run,
        board: &Board<ParcelsOf<T>>,
        hub: &mut Hub<ParcelsOf<T>>,
        number: u32,
    ) -> Result<Member<T>, AllocError>
        requires board { IsBoardOfRun T.net T.borders T.nothing T.right run.now board.now }
        requires hub { IsHub board.now hub.old }
        requires there { number < (T.net run.now).parts }
        requires first { contains (had_port hub.old) number ≡ false }
        ensures hub { IsHub board.now hub.new }
        ensures had { OnOk result (had_port hub.new ≡ number ∷ had_port hub.old) }
        ensures refused { OnErr result (hub.new ≡ hub.old) }
        ensures member { IfOk result
            (λ m. IsMember (T.net run.now).end T.borders T.nothing T.see T.stands T.spent T.right run.now board.now m) }
        ensures start { IfOk result (λ m. (number_of m ≡ number) × (seconds_of m ≡ 0) × (is_stopped m ≡ false)) }
    {
        let part = T::start(alloc, run, number)?;
        let member = Member::of(alloc, board, hub, number, part)?;
        Ok(member)
    }

    /// The number of its partition.
    pub(crate) fn number(&self) -> u32
        ensures { result ≡ number_of self.now }
    {
        self.port.partition()
    }

    /// How many seconds it has done.
    pub fn done(&self) -> u32
        ensures { result ≡ seconds_of self.now }
    {
        self.port.done()
    }

    /// Whether it found no memory in a second.
    pub fn is_stopped(&self) -> bool
        ensures { result ≡ is_stopped self.now }
    {
        self.stopped
    }
}
