// How a run ends.

ghost use Rattle.std.specs.Prelude.{◌≡◌};

/// How a run ends. Its number is the exit status of the program.
#[derive(Clone, Copy, PartialEq, Eq)]
pub enum Status {
    /// The whole transcript was written, without an error line or a stop.
    Done,
    /// The whole transcript was written. It has an error line and no stop.
    Faulty,
    /// The words are not in the command's language.
    BadWords,
    /// A file is absent or too large, or the input is too large.
    NoFile,
    /// A read failed.
    ReadFault,
    /// A write to `out` failed.
    WriteFault,
    /// The whole transcript was written. It has a stop.
    Stopped,
    /// Memory was wanting.
    NoMemory,
}

impl Status {
    ghost use Rattle.spec_command.specs.Endings.{number_of};

    /// The exit status of the program.
    pub fn number(self) -> u8
        ensures { result ≡ number_of self }
    {
        match self {
            Status::Done => 0,
            Status::Faulty => 1,
            Status::BadWords => 2,
            Status::NoFile => 3,
            Status::ReadFault => 4,
            Status::WriteFault => 5,
            Status::Stopped => 6,
            Status::NoMemory => 7,
        }
    }
}
