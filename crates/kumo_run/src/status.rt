//! How a call of the program ends.
ghost use Rattle.std.specs.Prelude.{◌≡◌};
ghost use Rattle.kumo_run.specs.StatusCode.{status_number};

/// The status of a run; its number is the exit status of the process.
#[derive(Clone, Copy, Debug, PartialEq, Eq)]
pub enum Status {
    /// Every message has its fate and the log was written whole, or what else was asked for was done.
    Drained,
    /// The words are no command.
    Usage,
    /// A policy text is refused.
    Policy,
    /// The mail text is refused.
    Mail,
    /// A text could not be read.
    ReadFault,
    /// The log could not be written whole.
    WriteFault,
    /// The disk failed.
    SpoolFault,
    /// The spool is damaged.
    SpoolDamaged,
    /// A limit would be passed.
    Limit,
    /// There was no memory.
    Memory,
    /// The input is good, and what it asks for is not built yet.
    NotYet,
    /// The search engine failed on a pattern.
    SearchFault,
}

impl Status {
    /// The exit status.
    pub fn code(self) -> u8
        ensures { result ≡ status_number self }
    {
        match self {
            Status::Drained => 0,
            Status::Usage => 2,
            Status::Policy => 3,
            Status::Mail => 4,
            Status::ReadFault => 5,
            Status::WriteFault => 6,
            Status::SpoolFault => 7,
            Status::SpoolDamaged => 8,
            Status::Limit => 10,
            Status::Memory => 11,
            Status::NotYet => 12,
            Status::SearchFault => 16,
        }
    }
}
