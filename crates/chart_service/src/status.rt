//! How a session ends.
ghost use Rattle.std.specs.Prelude.{◌≡◌};
ghost use Rattle.chart_service.specs.Statuses.{number_of};

use cyk_io::IoFault;

/// How a session ends.
#[derive(Clone, Copy, Debug, PartialEq, Eq)]
pub(crate) enum Status {
    /// The script was read through its line `end`.
    Ended,
    /// The grammar is refused.
    BadGrammar,
    /// The script is broken.
    BadScript,
    /// A read of the source failed.
    ReadFault,
    /// A write to the sink failed.
    WriteFault,
    /// There was no memory.
    OutOfMemory,
}

impl Status {
    /// The exit status of the program.
    pub(crate) fn number(self) -> u8
        ensures { result ≡ number_of self }
    {
        match self {
            Status::Ended => 0,
            Status::BadGrammar => 2,
            Status::BadScript => 3,
            Status::ReadFault => 4,
            Status::WriteFault => 5,
            Status::OutOfMemory => 6,
        }
    }
}

impl From<IoFault> for Status {
    ghost use Rattle.std.specs.Prelude.{◌≡◌};
    ghost use Rattle.chart_service.specs.Statuses.{status_at};

    ghost from_gives = { λ fault status. status ≡ status_at fault };

    fn from(fault: IoFault) -> Status {
        match fault {
            IoFault::Read => Status::ReadFault,
            IoFault::Write => Status::WriteFault,
            IoFault::Memory => Status::OutOfMemory,
        }
    }
}
