use std::alloc::AllocError;
use std::{fmt, io};

/// Why a call of a database, or of the keeper over it, did not end well.
#[derive(Clone, Copy)]
pub enum Stop {
    /// Memory ran out.
    Memory,
    /// The file was missing and couldn't be made.
    NotMade(io::Error),
    /// The file was to be found, and is missing or can't be read and written.
    NotFound(io::Error),
    /// The file can't be opened.
    CannotOpen,
    /// Another has the file open.
    Busy,
    /// The file is no database, or its rows break its schema.
    NoDatabase,
    /// There is no room on the disk.
    NoRoom,
    /// The disk failed.
    Disk,
    /// What is on the disk is damaged.
    Damaged,
    /// An earlier fault of the disk closed the database.
    Closed,
    /// A transaction is open that can't be ended.
    Transaction,
    /// A statement doesn't fit the tables, or a row doesn't.
    Statement,
    /// The tables or a row have another form than a keeper writes.
    OtherForm,
    /// No file is open.
    NotOpen,
}

impl From<AllocError> for Stop {
    fn from(_: AllocError) -> Stop {
        Stop::Memory
    }
}

impl Stop {
    /// Whether the database can't go on, so that its file has to be opened anew.
    pub(crate) fn is_last(&self) -> bool {
        matches!(
            self,
            Stop::Disk | Stop::Damaged | Stop::Closed | Stop::Transaction
        )
    }
}

impl fmt::Display for Stop {
    fn fmt<W: fmt::Write>(&self, f: &mut fmt::Formatter<W>) -> fmt::Result {
        f.write_str(match self {
            Stop::Memory => "out of memory",
            Stop::NotMade(error) => return write!(f, "{error}"),
            Stop::NotFound(error) => return write!(f, "{error}"),
            Stop::CannotOpen => "the file can't be opened",
            Stop::Busy => "another process has the file open",
            Stop::NoDatabase => "the file is no database, or its rows break its schema",
            Stop::NoRoom => "no room is left on the disk",
            Stop::Disk => "the disk failed",
            Stop::Damaged => "the file is damaged",
            Stop::Closed => "an earlier fault of the disk closed the file",
            Stop::Transaction => "a transaction can't be ended",
            Stop::Statement => "a statement doesn't fit the tables",
            Stop::OtherForm => "the tables are not those of a desk",
            Stop::NotOpen => "nothing is open",
        })
    }
}
