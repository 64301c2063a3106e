ghost use Rattle.std.specs.Prelude.{◌≡◌};
ghost use Rattle.node_shell.specs.Runs.{number_of_status};

/// How a run ended.
#[derive(Clone, Copy, Debug, PartialEq, Eq)]
pub enum Status {
    /// The script was read to its end, or to `quit`.
    Finished,
    /// The program's words are refused.
    BadWords,
    /// 16,777,216 bytes were read, and a further byte came.
    TooLong,
    /// A read failed.
    ReadFault,
    /// A write failed.
    WriteFault,
    /// A disk failed while it was made ready or a node first opened.
    DiskFault,
    NoMemory,
    /// A node's first opening found no sound journal of its own.
    BadJournal,
}

impl Status {
    /// The number with which the program ends.
    pub fn number(self) -> u8
        ensures { result ≡ number_of_status self }
    {
        match self {
            Status::Finished => 0,
            Status::BadWords => 2,
            Status::TooLong => 3,
            Status::ReadFault => 4,
            Status::WriteFault => 5,
            Status::DiskFault => 6,
            Status::NoMemory => 7,
            Status::BadJournal => 8,
        }
    }
}
