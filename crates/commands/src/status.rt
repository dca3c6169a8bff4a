//! How a call of the program ends.
/// How a call of the program ends, by the numbers 0 to 6.
#[derive(Clone, Copy)]
pub enum Status {
    /// The output was written.
    Done,
    /// The output was written, and says that something was found.
    Found,
    /// The words are no command's.
    Usage,
    /// A file that the words name has a fault.
    Refused,
    /// A file couldn't be read.
    ReadFault,
    /// The output couldn't be written.
    WriteFault,
    /// No memory was found.
    OutOfMemory,
}

impl Status {
    ghost use Rattle.std.specs.Prelude.{◌≡◌};
    ghost use Rattle.commands.specs.Exit.{exit_code};

    /// The status with which the program ends.
    pub fn code(self) -> u8
        ensures { result ≡ exit_code self }
    {
        self as u8
    }
}
