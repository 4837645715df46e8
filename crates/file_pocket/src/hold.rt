use edge_faults::Trouble;
use rel_lexer::Text;
use std::alloc::AllocError;
use std::fs::{File, Files, OpenFile, OpenOptions, TryLockError};
use std::io::{self, Eprint, Error, ErrorKind};
use std::os::unix::fs::OpenOptionsExt;

/// The mode of a file that its owner alone reads and writes.
pub(crate) const OWNER_ALONE: u32 = 0o600;

/// What a pocket asks of the runtime: files of the system, since these can be locked, a line for each fault, and memory.
pub trait PocketHost: Files<File = File> + Eprint + AllocGlobal + Clone + Drop {}

impl<H: Files<File = File> + Eprint + AllocGlobal + Clone + Drop> PocketHost for H {}

/// A place that is held: while the lock lives, no other process holds it.
#[derive(Drop)]
pub(crate) struct Held {
    /// Where the text stands.
    pub(crate) place: Text,
    /// Where the next text is put together.
    pub(crate) beside: Text,
    lock: File,
}

/// Whether a place is held.
#[derive(Drop)]
pub(crate) enum Hold {
    /// None was named.
    Nothing,
    Held(Held),
    /// It can't be held, for this reason.
    Refused { place: Text, reason: Error },
}

impl Hold {
    /// Holds a place by a lock on a file beside it, which is made where it is missing. The error is want of memory.
    pub(crate) fn of<H: PocketHost>(host: &H, place: &Text) -> Result<Hold, AllocError> {
        let lock = with_end(place, ".lock")?;
        match locked_at(host, lock.as_str()) {
            Ok(lock) => Ok(Hold::Held(Held {
                place: place.copy()?,
                beside: with_end(place, ".new")?,
                lock,
            })),
            Err(reason) => Ok(Hold::Refused {
                place: place.copy()?,
                reason,
            }),
        }
    }

    /// The place, where it is held.
    pub(crate) fn held(&self) -> Result<&Held, Trouble> {
        match self {
            Hold::Held(held) => Ok(held),
            Hold::Refused { reason, .. } => Err(Trouble::from(*reason)),
            Hold::Nothing => {
                let words = "the pocket isn't open";
                Err(Trouble::System(Error::new(ErrorKind::NotFound, words)))
            }
        }
    }

    /// The name of the place, for what is told of it.
    pub(crate) fn name(&self) -> &str {
        match self {
            Hold::Held(held) => held.place.as_str(),
            Hold::Refused { place, .. } => place.as_str(),
            Hold::Nothing => "text",
        }
    }
}

fn with_end(place: &Text, end: &str) -> Result<Text, AllocError> {
    let mut text = place.copy()?;
    text.push(end)?;
    Ok(text)
}

/// Opens a file and locks it. Another process that holds the lock isn't waited for.
fn locked_at<H: PocketHost>(host: &H, path: &str) -> io::Result<File> {
    let mut options = OpenOptions::new();
    options
        .read(true)
        .write(true)
        .create(true)
        .mode(OWNER_ALONE);
    let file = options.open(host, path)?;
    match file.try_lock() {
        Ok(()) => Ok(file),
        Err(TryLockError::WouldBlock) => {
            let words = "another process has this pocket";
            Err(Error::new(ErrorKind::ResourceBusy, words))
        }
        Err(TryLockError::Error(error)) => Err(error),
    }
}
