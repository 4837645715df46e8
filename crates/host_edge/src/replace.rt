use crate::Host;
use crate::place::folder_of;
use crate::rights::{Rights, give};
use bf_world::joined;
use edge_faults::Trouble;
use rel_lexer::Text;
use std::alloc::{AllocError, Global};
use std::fs::{self, File, OpenFile, OpenOptions};
use std::io::{self, Error, ErrorKind, Read, Write};
use std::mem::drop;
use std::os::unix::fs::OpenOptionsExt;

/// How the name begins of a file in which new content stands until it replaces another.
const BESIDE: &str = ".desk-new";

/// How many names of such a file are tried.
const MOST_NAMES: u32 = 1000;

/// The mode of a file whose own mode is given to it when it is whole: nobody else reads it before.
const CLOSED: u32 = 0o600;

/// The link that leads to the number of the process that asks.
const THIS_PROCESS: &str = "/proc/self";

/// Puts the reader's bytes at a place, in the place of what is there: they are written to a file beside it, which gets these rights, and is
/// flushed and renamed; then the folder is flushed. At an error before the rename nothing is left of it; one behind it is the system's.
pub(crate) fn replace<H: Host, C: Read>(
    host: &H,
    place: &str,
    content: &mut C,
    rights: Rights,
) -> Result<(), Trouble> {
    let folder = File::open(host, folder_of(place))?;
    let done = replace_in(host, &folder, place, content, rights);
    drop(folder);
    done
}

/// The same where the place lies in this open folder.
fn replace_in<H: Host, C: Read>(
    host: &H,
    folder: &H::File,
    place: &str,
    content: &mut C,
    rights: Rights,
) -> Result<(), Trouble> {
    rename_over(host, place, content, rights)?;
    match folder.sync_all() {
        Ok(()) => Ok(()),
        // the content stands at its place, so this can't be want of memory
        Err(error) => Err(Trouble::System(error)),
    }
}

fn rename_over<H: Host, C: Read>(
    host: &H,
    place: &str,
    content: &mut C,
    rights: Rights,
) -> Result<(), Trouble> {
    let mut beside = made_beside(host, folder_of(place), rights)?;
    let placed = fill_and_rename(host, &mut beside, place, content, rights);
    drop(beside);
    Ok(placed?)
}

/// Fills a file and renames it to a place. At an error nothing is left of it.
fn fill_and_rename<H: Host, C: Read>(
    host: &H,
    beside: &mut Beside<H::File>,
    place: &str,
    content: &mut C,
    rights: Rights,
) -> io::Result<()> {
    let placed = match fill(host, &mut beside.file, content, rights) {
        Ok(()) => fs::rename(host, beside.path.as_str(), place),
        Err(error) => Err(error),
    };
    if placed.is_err() {
        let _ = fs::remove_file(host, beside.path.as_str());
    }
    placed
}

/// A file that this process has made, and where.
#[derive(Drop)]
struct Beside<F: Drop> {
    path: Text,
    file: F,
}

/// Makes a file in a folder, where nothing has its name, no link either.
fn made_beside<H: Host>(
    host: &H,
    folder: &str,
    rights: Rights,
) -> Result<Beside<H::File>, Trouble> {
    let number = own_number(host)?;
    let made = first_made(host, folder, number.as_str(), rights);
    drop(number);
    made
}

/// The same by the first of its names that nothing has.
fn first_made<H: Host>(
    host: &H,
    folder: &str,
    number: &str,
    rights: Rights,
) -> Result<Beside<H::File>, Trouble> {
    for count in 0..MOST_NAMES {
        let path = path_beside(host.alloc(), folder, number, count)?;
        if let Some(beside) = made_at(host, path, rights)? {
            return Ok(beside);
        }
    }
    let words = "each name that a file beside it may have is taken";
    Err(Trouble::System(Error::new(ErrorKind::AlreadyExists, words)))
}

/// Makes a file at a path, likewise. None where something is there.
fn made_at<H: Host>(host: &H, path: Text, rights: Rights) -> io::Result<Option<Beside<H::File>>> {
    match new_file(host, path.as_str(), rights)? {
        Some(file) => Ok(Some(Beside { path, file })),
        None => Ok(None),
    }
}

/// Opens a file that is made at a path. Where its rights are given to it later, nobody else reads it before.
fn new_file<H: Host>(host: &H, path: &str, rights: Rights) -> io::Result<Option<H::File>> {
    let mut options = OpenOptions::new();
    options.write(true).create_new(true);
    if !matches!(rights, Rights::New) {
        options.mode(CLOSED);
    }
    match options.open(host, path) {
        Ok(file) => Ok(Some(file)),
        Err(error) if error.kind() == ErrorKind::AlreadyExists => Ok(None),
        Err(error) => Err(error),
    }
}

/// The number of this process, or 0 where the system doesn't show it.
fn own_number<H: Host>(host: &H) -> Result<Text, Trouble> {
    match fs::read_link(host, THIS_PROCESS) {
        Ok(number) => Ok(Text::from_str(host.alloc(), number.as_str())?),
        Err(error) if error.kind() == ErrorKind::OutOfMemory => Err(Trouble::Memory),
        Err(_) => Ok(Text::from_str(host.alloc(), "0")?),
    }
}

fn path_beside(alloc: Global, folder: &str, number: &str, count: u32) -> Result<Text, AllocError> {
    let name = format!(in alloc; "{BESIDE}-{number}-{count}")?;
    joined(alloc, folder, name.as_str())
}

/// Writes a file, gives it its rights and flushes it.
fn fill<H: Host, C: Read>(
    host: &H,
    file: &mut H::File,
    content: &mut C,
    rights: Rights,
) -> io::Result<()> {
    io::copy(content, file)?;
    give(host, file, rights)?;
    file.flush()?;
    file.sync_all()
}
