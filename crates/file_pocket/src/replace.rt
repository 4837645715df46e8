use crate::PocketHost;
use crate::hold::{Held, OWNER_ALONE};
use edge_faults::Trouble;
use std::fs::{self, File, OpenFile, OpenOptions};
use std::io::{self, ErrorKind, Write};
use std::os::unix::fs::OpenOptionsExt;

/// Puts a text at a held place: it is written to a file beside it, which is flushed and renamed; then the folder is flushed. So whenever this
/// is cut short the old text stands there or the new one, whole. An error behind the rename is the system's, never want of memory.
pub(crate) fn replace<H: PocketHost>(host: &H, held: &Held, text: &[u8]) -> Result<(), Trouble> {
    let folder = File::open(host, folder_of(held.place.as_str()))?;
    place(host, held, text)?;
    match folder.sync_all() {
        Ok(()) => Ok(()),
        Err(error) => Err(Trouble::System(error)),
    }
}

/// Fills the file beside and renames it. What a save that was cut short left of that name is removed first.
fn place<H: PocketHost>(host: &H, held: &Held, text: &[u8]) -> io::Result<()> {
    let beside = held.beside.as_str();
    remove(host, beside)?;
    let mut options = OpenOptions::new();
    options.write(true).create_new(true).mode(OWNER_ALONE);
    let mut file = options.open(host, beside)?;
    let placed = match fill(&mut file, text) {
        Ok(()) => fs::rename(host, beside, held.place.as_str()),
        Err(error) => Err(error),
    };
    if placed.is_err() {
        let _ = remove(host, beside);
    }
    placed
}

/// Removes a file, if it is there.
fn remove<H: PocketHost>(host: &H, path: &str) -> io::Result<()> {
    match fs::remove_file(host, path) {
        Err(error) if error.kind() != ErrorKind::NotFound => Err(error),
        _ => Ok(()),
    }
}

/// Writes a file and flushes it.
fn fill(file: &mut File, text: &[u8]) -> io::Result<()> {
    file.write_all(text)?;
    file.sync_all()
}

/// The folder in which a place lies.
fn folder_of(place: &str) -> &str {
    match place.rsplit_once('/') {
        Some((folder, _)) if folder.is_empty() => "/",
        Some((folder, _)) => folder,
        None => ".",
    }
}
