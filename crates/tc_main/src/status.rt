//! How the program ends.

ghost use Rattle.std.specs.Prelude.{◌≡◌, ◌≤◌};
ghost use Rattle.tc_main.specs.Statuses.{status_number};

use tc_replay::reason::Rejected;

/// How the program ends.
#[derive(Clone, Copy, Debug, PartialEq, Eq)]
pub enum Status {
    /// What the arguments ask for was done, and its text was written whole.
    Done,
    /// The arguments ask for nothing that the program does.
    Usage,
    /// The source failed.
    ReadFault,
    /// The input was refused for the reason of this number: 0 if it is too large, 17 if it ends
    /// before the guest's file does, and else that of the file.
    Refused(u32),
    /// The sink failed.
    WriteFault,
    /// Memory ran out.
    OutOfMemory,
    /// The history was rejected: at this line, for this reason.
    Rejected(Rejected),
}

/// The exit status of the program for this status.
pub fn exit_of(status: Status) -> u8
    ensures { result ≡ status_number status }
{
    status.number() as u8
}

impl Status {
    /// The exit status of the program, from 0 to 6.
    pub fn number(self) -> u32
        ensures value { result ≡ status_number self }
        ensures bound { result ≤ 6 }
    {
        match self {
            Status::Done => 0,
            Status::Usage => 1,
            Status::ReadFault => 2,
            Status::Refused(_) => 3,
            Status::WriteFault => 4,
            Status::OutOfMemory => 5,
            Status::Rejected(_) => 6,
        }
    }
}
