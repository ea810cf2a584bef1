//! The statuses of a call: the only place where they are numbers.

ghost use Rattle.std.specs.Prelude.{◌≡◌};
ghost use Rattle.answers.specs.Status as spec;

use c_tree::End;

/// How a call of the tool ended.
#[derive(Clone, Copy, PartialEq, Eq)]
pub enum Status {
    /// What the words ask for is done.
    Done,
    /// The words ask for nothing that there is.
    Usage,
    /// A source is refused.
    SourceRefused,
    /// A mapping or a patch is refused.
    MapRefused,
    /// A file could not be read.
    ReadFault,
    /// The output, the line or a file could not be written.
    WriteFault,
    /// The program was stopped by a trap.
    Trapped,
    /// No thread of the program can go on.
    Deadlock,
    /// The program made as many Steps as it may.
    StepLimit,
    /// Memory was wanted.
    NoMemory,
    /// A schedule has an event that the run can't make, or doesn't end with the run.
    ScheduleRefused,
    /// A schedule has more bytes than are read.
    TooLong,
}

impl Status {
    /// The number that the process ends with.
    pub fn code(self) -> u8
        ensures { result ≡ spec.code self }
    {
        match self {
            Status::Done => 0,
            Status::Usage => 1,
            Status::SourceRefused => 2,
            Status::MapRefused => 3,
            Status::ReadFault => 4,
            Status::WriteFault => 5,
            Status::Trapped => 6,
            Status::Deadlock => 7,
            Status::StepLimit => 8,
            Status::NoMemory => 9,
            Status::ScheduleRefused => 10,
            Status::TooLong => 11,
        }
    }
}

/// The status of a run that ended so.
pub fn status_of(end: End) -> Status
    ensures { result ≡ spec.status_of end }
{
    match end {
        End::Finished(_) => Status::Done,
        End::Trapped(_, _) => Status::Trapped,
        End::Deadlock => Status::Deadlock,
        End::Limit => Status::StepLimit,
    }
}
