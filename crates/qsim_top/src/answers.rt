ghost use Rattle.std.specs.Prelude.{◌≡◌};
ghost use Rattle.qsim_top.specs.Answer.{status_code};

use edge_files::EffectList;

/// How a run ended.
#[derive(Clone, Copy, Debug, PartialEq, Eq)]
pub enum Status {
    /// The command did all its work.
    Done,
    /// The words are refused.
    Usage,
    /// The scenario has a fault, and the report names the first one.
    Refused,
    /// A read failed.
    ReadFault,
    /// A write failed.
    WriteFault,
    /// Memory was wanting.
    NoMemory,
    /// The keeper failed.
    KeepFault,
    /// Nothing is kept from which a run could go on.
    NothingKept,
    /// What is kept is of another scenario.
    Foreign,
    /// No way joins the two nodes.
    NoWay,
}

impl Status {
    /// The number with which the program ends.
    #[tactic(auto, unfolding(crate::specs::Answer::status_code))]
    pub fn code(self) -> u8
        ensures { result ≡ status_code self }
    {
        match self {
            Status::Done => 0,
            Status::Usage => 2,
            Status::Refused => 3,
            Status::ReadFault => 4,
            Status::WriteFault => 5,
            Status::NoMemory => 6,
            Status::KeepFault => 7,
            Status::NothingKept => 8,
            Status::Foreign => 9,
            Status::NoWay => 10,
        }
    }
}

/// What is to be done outside, and the status when all of it is done.
#[derive(Drop)]
pub struct Answer {
    pub status: Status,
    pub effects: EffectList,
}
