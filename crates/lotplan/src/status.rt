// How a run ends, and the numbers of that.
ghost use Rattle.std.specs.Prelude.{◌≡◌};
ghost use Rattle.lotplan.specs.Status.{code_of};

// The numbers with which the process ends, each that of the status of its name. Clauses, definitions and proofs name them.
pub const DONE: u8 = 0;

pub const NO_PLAN: u8 = 1;

pub const UNDECIDED: u8 = 2;

pub const FAULTY: u8 = 3;

pub const NO_COMMAND: u8 = 4;

pub const REFUSED: u8 = 5;

pub const MISSING: u8 = 6;

pub const UNREAD: u8 = 7;

pub const UNWRITTEN: u8 = 8;

pub const UNPRINTED: u8 = 9;

pub const NO_MEMORY: u8 = 10;

pub const TOO_LONG: u8 = 11;

pub const NO_REST: u8 = 13;

/// How a run ends.
#[derive(Clone, Copy, Debug, PartialEq, Eq)]
pub enum Status {
    /// What was asked for is done.
    Done,
    /// No plan is feasible.
    NoPlan,
    /// The best cost was left open, or the bound was not found.
    Undecided,
    /// The plan file holds no plan, or one that breaks a rule, or the certificate is refused.
    Faulty,
    /// The words are no command.
    NoCommand,
    /// The model is refused.
    Refused,
    /// A file is absent.
    Missing,
    /// A file could not be read.
    Unread,
    /// A file could not be written.
    Unwritten,
    /// The lines could not be printed.
    Unprinted,
    /// Memory ran out.
    NoMemory,
    /// A file is longer than `MAX_FILE` bytes, a certificate file than the most bytes that `cert_stream` reads, or a page would
    /// be longer than `MAX_PAGE`.
    TooLong,
    /// After the periods that are kept, no later ones can be planned.
    NoRest,
}

impl Status {
    /// The number with which the process ends.
    pub fn code(self) -> u8
        ensures { result ≡ code_of self }
    {
        match self {
            Status::Done => DONE,
            Status::NoPlan => NO_PLAN,
            Status::Undecided => UNDECIDED,
            Status::Faulty => FAULTY,
            Status::NoCommand => NO_COMMAND,
            Status::Refused => REFUSED,
            Status::Missing => MISSING,
            Status::Unread => UNREAD,
            Status::Unwritten => UNWRITTEN,
            Status::Unprinted => UNPRINTED,
            Status::NoMemory => NO_MEMORY,
            Status::TooLong => TOO_LONG,
            Status::NoRest => NO_REST,
        }
    }
}
