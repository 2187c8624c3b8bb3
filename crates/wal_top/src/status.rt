ghost use Rattle.std.specs.Prelude.{◌≡◌};
ghost use Rattle.wal_top.specs.Statuses.{code_of};

/// How a run ended.
#[derive(Clone, Copy, Debug, PartialEq, Eq)]
pub enum Status {
    /// The whole text of the command is written.
    Done,
    /// The words are no command.
    Usage,
    /// The script, or what a view asks for, is too long, or has a bad line.
    Script,
    /// The source failed.
    Read,
    /// The sink failed. A part of the text is written.
    Write,
    /// The disk failed.
    Disk,
    /// The directories, or the table that a store begins with, were refused.
    Refused,
    /// Memory ran out.
    NoMemory,
    /// A limit was reached.
    Limit,
}

impl Status {
    /// The exit status of the program, from 0 for `Done` to 8 for `Limit`.
    pub fn code(self) -> u8
        ensures { result ≡ code_of self }
    {
        self as u8
    }
}

/// The end of a run, and the disk as it stands then.
#[derive(Debug, Drop)]
pub struct Ran<D> {
    pub status: Status,
    pub disk: D,
}
