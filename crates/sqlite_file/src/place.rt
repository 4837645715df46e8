use desk_sql::{Opening, Stop};
use std::fs::{OpenFile, OpenOptions};
use std::io::{self, Error, ErrorKind, Read};
use std::os::unix::fs::OpenOptionsExt;

/// The mode of a file that its owner alone reads and writes.
const OWNER_ALONE: u32 = 0o600;

/// How a database of SQLite begins.
const HEAD: &[u8] = b"SQLite format 3\0";

/// Sees that a file is there, as one that is made where it is missing or as one that is found.
pub(crate) fn prepare(rt: &HostRuntime, place: &str, opening: Opening) -> Result<(), Stop> {
    // no file's path to SQLite
    if place == ":memory:" || place.starts_with("file:") {
        return Err(Stop::CannotOpen);
    }
    match opening {
        Opening::Make => make(rt, place),
        Opening::Find => find(rt, place),
    }
}

/// Makes an empty file where none is there.
fn make(rt: &HostRuntime, place: &str) -> Result<(), Stop> {
    let mut options = OpenOptions::new();
    options.write(true).create_new(true).mode(OWNER_ALONE);
    match options.open(rt, place) {
        Ok(_) => Ok(()),
        Err(error) => match error.kind() {
            ErrorKind::AlreadyExists => Ok(()),
            ErrorKind::OutOfMemory => Err(Stop::Memory),
            _ => Err(Stop::NotMade(error)),
        },
    }
}

/// Finds a file that can be read and written, and begins as a database does. Any other is refused here: SQLite would make a database of an
/// empty one, and a log beside each.
fn find(rt: &HostRuntime, place: &str) -> Result<(), Stop> {
    match begins_a_database(rt, place) {
        Ok(true) => Ok(()),
        Ok(false) => Err(Stop::NoDatabase),
        Err(error) => Err(not_found(error)),
    }
}

fn begins_a_database(rt: &HostRuntime, place: &str) -> io::Result<bool> {
    let mut options = OpenOptions::new();
    options.read(true).write(true);
    let mut file = options.open(rt, place)?;
    if !file.metadata()?.is_file() {
        return Err(Error::new(ErrorKind::InvalidInput, "this is no file"));
    }
    let mut head = [0u8; HEAD.len()];
    file.read_exact(&mut head)?;
    Ok(head.starts_with(HEAD))
}

fn not_found(error: Error) -> Stop {
    match error.kind() {
        ErrorKind::OutOfMemory => Stop::Memory,
        ErrorKind::UnexpectedEof => Stop::NoDatabase,
        _ => Stop::NotFound(error),
    }
}
