use crate::Host;
use std::fs::{self, Metadata};
use std::io::{self, Error, ErrorKind};

/// The error of a call on a program that has ended (ESRCH), as reading its files under `/proc` may give.
const NO_SUCH_PROCESS: i32 = 3;

/// What stands at a place, links followed.
#[derive(Clone, Copy)]
pub(crate) enum Kind {
    Nothing,
    File,
    Folder,
    /// A pipe, a socket or a device. Looks show nothing there, and no command touches it.
    Other,
}

/// Whether an error says that nothing stands at a place: nothing, or no folder, is on the way there, links lead in a circle, or no name
/// is so long.
pub(crate) fn says_nothing_is_there(error: &Error) -> bool {
    match error.kind() {
        ErrorKind::NotFound | ErrorKind::NotADirectory => true,
        ErrorKind::FilesystemLoop | ErrorKind::InvalidFilename => true,
        _ => error.raw_os_error() == Some(NO_SUCH_PROCESS),
    }
}

/// What a call answers, or None where nothing stands at its place.
pub(crate) fn there<T: Drop>(answer: io::Result<T>) -> io::Result<Option<T>> {
    match answer {
        Ok(value) => Ok(Some(value)),
        Err(error) if says_nothing_is_there(&error) => Ok(None),
        Err(error) => Err(error),
    }
}

/// What the system knows of a place, links followed.
pub(crate) fn metadata_at<H: Host>(host: &H, place: &str) -> io::Result<Option<Metadata>> {
    there(fs::metadata(host, place))
}

/// What stands at a place.
pub(crate) fn kind_at<H: Host>(host: &H, place: &str) -> io::Result<Kind> {
    let Some(metadata) = metadata_at(host, place)? else {
        return Ok(Kind::Nothing);
    };
    if metadata.is_dir() {
        Ok(Kind::Folder)
    } else if metadata.is_file() {
        Ok(Kind::File)
    } else {
        Ok(Kind::Other)
    }
}
