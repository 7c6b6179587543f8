//! How a run ends.

ghost use Rattle.std.specs.Prelude.{◌≡◌};
ghost use Rattle.vfa.specs.Status.{exit_number_of};

/// How a run ends.
#[derive(Clone, Copy, Debug, PartialEq, Eq)]
pub enum Status {
    /// All is written.
    Done,
    /// The input is refused.
    Refused,
    /// The words are no command.
    Usage,
    /// The source failed.
    ReadFault,
    /// A sink failed.
    WriteFault,
    /// Memory ran out.
    Memory,
}

impl Status {
    /// The exit status of the program: 0 to 5 in the order above.
    pub fn exit_number(self) -> u8
        ensures { result ≡ exit_number_of self }
    {
        match self {
            Status::Done => 0,
            Status::Refused => 1,
            Status::Usage => 2,
            Status::ReadFault => 3,
            Status::WriteFault => 4,
            Status::Memory => 5,
        }
    }
}
