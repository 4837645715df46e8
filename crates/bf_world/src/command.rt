ghost use Rattle.std.specs.Prelude.{◌≡◌, IfOk};
ghost use Rattle.bf_world.specs.Reasons.{reason_name};

use desk_base::Bytes;
use rel_lexer::Text;
use std::alloc::AllocError;

/// What a machine can be told to do.
#[derive(Drop)]
pub enum Command {
    /// The file at the path has these bytes afterwards.
    Write(Text, Bytes),
    /// These bytes stand at the end of the file at the path.
    Append(Text, Bytes),
    /// No file is at the path.
    Delete(Text),
    /// The file at the first path stands at the second too.
    Copy(Text, Text),
    /// The file at the first path stands at the second instead.
    Move(Text, Text),
    /// A folder is at the path.
    MakeFolder(Text),
    /// The folder at the path is gone, which was empty.
    DropFolder(Text),
    /// The program of this line was started, with its window hidden or not.
    Start { line: Text, hidden: bool },
    /// The setting has this value from this moment on, unless it has one from that moment or a later one.
    Put { name: Text, value: Text, date: i64 },
    /// The setting is gone, unless it has a value from that moment or a later one.
    Drop { name: Text, date: i64 },
    /// The file of this name in the folder `__Download` has these bytes.
    Place(Text, Bytes),
}

/// Why a command isn't done.
#[derive(Clone, Copy)]
pub enum Reason {
    NoSuchFile,
    AlreadyThere,
    NoSuchFolder,
    NotEmpty,
    NotStarted,
    BadPath,
    NotAFile,
}

/// The number of a program that was started, counted from 0.
#[derive(Clone, Copy)]
pub struct ProcessNo(pub u32);

/// What a command answers.
#[derive(Clone, Copy)]
pub enum Acted {
    Done,
    /// A program was started, and this is its number.
    Started(ProcessNo),
    /// Nothing was changed.
    Refused(Reason),
    /// The count of faults went up. The command was done, or nothing was changed.
    Failed,
    /// Memory ran out. Nothing was changed.
    Memory,
}

/// What a poll of a started program answers.
#[derive(Clone, Copy)]
pub enum Polled {
    Running,
    /// The program has ended with this exit code.
    Exited(i64),
    /// The count of faults went up.
    Failed,
}

impl Reason {
    /// Its name, as lines and causes write it.
    pub fn name(self) -> &'static str
        ensures { result.now ≡ reason_name self }
    {
        match self {
            Reason::NoSuchFile => "NoSuchFile",
            Reason::AlreadyThere => "AlreadyThere",
            Reason::NoSuchFolder => "NoSuchFolder",
            Reason::NotEmpty => "NotEmpty",
            Reason::NotStarted => "NotStarted",
            Reason::BadPath => "BadPath",
            Reason::NotAFile => "NotAFile",
        }
    }
}

impl Command {
    /// The same command once more. The error is want of memory.
    pub fn copy(&self) -> Result<Command, AllocError>
        ensures { IfOk result (λ command. command ≡ self.now) }
    {
        match self {
            Command::Write(path, content) => Ok(Command::Write(path.copy()?, content.copy()?)),
            Command::Append(path, content) => Ok(Command::Append(path.copy()?, content.copy()?)),
            Command::Delete(path) => Ok(Command::Delete(path.copy()?)),
            Command::Copy(from, to) => Ok(Command::Copy(from.copy()?, to.copy()?)),
            Command::Move(from, to) => Ok(Command::Move(from.copy()?, to.copy()?)),
            Command::MakeFolder(path) => Ok(Command::MakeFolder(path.copy()?)),
            Command::DropFolder(path) => Ok(Command::DropFolder(path.copy()?)),
            Command::Start { line, hidden } => Ok(Command::Start {
                line: line.copy()?,
                hidden: *hidden,
            }),
            Command::Put { name, value, date } => Ok(Command::Put {
                name: name.copy()?,
                value: value.copy()?,
                date: *date,
            }),
            Command::Drop { name, date } => Ok(Command::Drop {
                name: name.copy()?,
                date: *date,
            }),
            Command::Place(name, content) => Ok(Command::Place(name.copy()?, content.copy()?)),
        }
    }
}
