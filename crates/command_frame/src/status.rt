ghost use Rattle.std.specs.Prelude.{◌≡◌};
ghost use Rattle.command_frame.specs.Statuses.{status_number};

/// What was answered. The program ends with its number, from 0 for `Yes` to 9 for `NoMemory`.
#[derive(Clone, Copy, Debug, PartialEq, Eq)]
pub enum Status {
    /// What the command asks holds: the system is admitted, the certificate proves it, the trace is
    /// kept, no job misses; or the text that was asked for is made.
    Yes,
    /// It does not, and the text tells the first reason.
    No,
    /// The words have none of the forms.
    Usage,
    /// A file is refused.
    BadFile,
    /// A node's horizon is too wide to be walked.
    Wide,
    /// There is no file of that name.
    Absent,
    /// Opening or reading a file failed; nothing is written.
    ReadFault,
    /// A file has more than 67,108,864 bytes.
    TooLong,
    /// Writing failed; what was written is the front of the text.
    WriteFault,
    /// Memory ran out; nothing is written.
    NoMemory,
}

impl Status {
    /// The number with which the program ends.
    pub fn number(self) -> u8
        ensures { result ≡ status_number self }
    {
        self as u8
    }
}
