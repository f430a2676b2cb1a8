// How a call of the program ends.
ghost use Rattle.std.specs.Prelude.{◌≡◌};
ghost use Rattle.command_answers.specs.StatusCodes.{code_of};

/// How the program ended.
#[derive(Clone, Copy, Debug, PartialEq, Eq)]
pub enum Status {
    /// The work was done, and the whole output was written.
    Done,
    /// The words are no command. The usage line was written.
    Usage,
    /// The input was refused, and a line that says why was written.
    BadInput,
    /// The source failed, and nothing was written.
    ReadFault,
    /// The sink failed, and took a prefix of the output or of the one fault line.
    WriteFault,
    /// There was no memory, and nothing was written.
    NoMemory,
    /// The input is longer than 4194304 bytes, and a line that says so was written.
    TooLong,
    /// The report is not that of a legal history. The line `no` with its first bad line was written.
    NotLegal,
}

impl Status {
    /// The exit status of the program: 0 for `Done`, 2 to 8 in the order above for the others.
    pub fn code(&self) -> u8
        ensures { result ≡ code_of self.now }
    {
        match self {
            Status::Done => 0,
            Status::Usage => 2,
            Status::BadInput => 3,
            Status::ReadFault => 4,
            Status::WriteFault => 5,
            Status::NoMemory => 6,
            Status::TooLong => 7,
            Status::NotLegal => 8,
        }
    }
}
