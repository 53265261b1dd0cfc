//! How a run of the command ends.

ghost use Rattle.std.specs.Prelude.{◌≡◌};
ghost use Rattle.dh_command.specs.Statuses.{code_of};

/// How a run of the command ended.
#[derive(Clone, Copy, Debug, PartialEq, Eq)]
pub enum Status {
    /// The answer was written whole.
    Ok,
    /// A text or its bytes spell no expression.
    Text,
    /// A type fault.
    Ill,
    /// An import that cannot be had.
    Import,
    /// A limit of this program.
    Limit,
    /// The words of the command line.
    Usage,
    /// The input could not be read.
    Read,
    /// The output could not be written.
    Write,
    /// A device failed where an import was fetched.
    Desk,
    /// Want of memory.
    Memory,
    /// The normal form has no JSON value.
    NoJson,
    /// A step that cannot be made.
    Step,
}

impl Status {
    /// The exit status of the process.
    pub fn code(&self) -> u8
        ensures { result ≡ code_of self.now }
    {
        match self {
            Status::Ok => 0,
            Status::Text => 1,
            Status::Ill => 2,
            Status::Import => 3,
            Status::Limit => 4,
            Status::Usage => 5,
            Status::Read => 6,
            Status::Write => 7,
            Status::Desk => 8,
            Status::Memory => 9,
            Status::NoJson => 10,
            Status::Step => 11,
        }
    }
}
