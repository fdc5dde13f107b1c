ghost use Rattle.std.specs.Prelude.{◌≡◌};
ghost use Rattle.raftreplay.specs.Statuses.{number_of};

/// The status with which a command ends.
#[derive(Clone, Copy, Debug, PartialEq, Eq)]
pub enum Status {
    /// The answer was written.
    Done,
    /// The words are no command. Nothing was read, nothing was written.
    Usage,
    /// The bytes are no log text. The first fault was written.
    Syntax,
    /// The logs are refused. The reason was written.
    Unlawful,
    /// A read failed. Nothing was written.
    ReadFault,
    /// A write failed. A front of the text was written.
    WriteFault,
    /// Memory ran out. Nothing was written.
    NoMemory,
    /// The input has more than 64 MiB. Nothing was written.
    TooLong,
}

impl Status {
    /// Returns the number that the program ends with.
    pub fn number(self) -> u8
        ensures { result ≡ number_of self }
    {
        match self {
            Status::Done => 0,
            Status::Usage => 1,
            Status::Syntax => 2,
            Status::Unlawful => 3,
            Status::ReadFault => 4,
            Status::WriteFault => 5,
            Status::NoMemory => 6,
            Status::TooLong => 7,
        }
    }

    /// Returns the line for standard error, where a status has one.
    pub fn message(self) -> Option<&'static str> {
        match self {
            Status::Done | Status::Syntax | Status::Unlawful => None,
            Status::Usage => Some("raftreplay: usage"),
            Status::ReadFault => Some("raftreplay: read fault"),
            Status::WriteFault => Some("raftreplay: write fault"),
            Status::NoMemory => Some("raftreplay: no memory"),
            Status::TooLong => Some("raftreplay: input too long"),
        }
    }
}
