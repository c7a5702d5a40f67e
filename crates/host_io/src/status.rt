//! How a tool ends.

ghost use Rattle.std.specs.Prelude.{◌≡◌};
ghost use Rattle.host_io.specs.ToolStatus.{status_code};

/// How a tool ends.
#[derive(Clone, Copy, Debug, PartialEq, Eq)]
pub enum ToolStatus {
    /// It answered, and the answer is yes where there is a question.
    Good = 0,
    /// The words of the command line are not those of the tool.
    Usage = 2,
    /// What was read is not in the form that the tool reads.
    Refused = 3,
    /// No memory was left.
    Memory = 5,
    /// A read failed.
    ReadFault = 6,
    /// A write failed.
    WriteFault = 7,
    /// It answered, and the answer is no.
    No = 8,
}

impl ToolStatus {
    /// The number that the process ends with.
    pub fn code(self) -> u8
        ensures { result ≡ status_code self }
    {
        self as u8
    }
}
