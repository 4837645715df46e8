use crate::Host;
use crate::kind::{Kind, kind_at, says_nothing_is_there, there};
use desk_base::Bytes;
use edge_faults::Trouble;
use std::alloc::Global;
use std::fs::{File, Metadata, OpenFile};
use std::io::{self, Error, ErrorKind, Read};

/// The most bytes of a file that is read.
const LONGEST_FILE: usize = 1_073_741_824;

/// How many bytes are read at a time.
const ROOM: usize = 16_384;

/// A file that is open to be read, and what the system knows of it.
#[derive(Drop)]
pub(crate) struct Opened<F: Drop> {
    pub(crate) file: F,
    pub(crate) metadata: Metadata,
}

/// Opens the file at a place to read it. None where no file is there: what was opened is asked for its kind, since something else may stand
/// there by now than what was asked before.
pub(crate) fn opened_at<H: Host>(host: &H, place: &str) -> io::Result<Option<Opened<H::File>>> {
    let Some(file) = there(File::open(host, place))? else {
        return Ok(None);
    };
    let metadata = file.metadata()?;
    if metadata.is_file() {
        Ok(Some(Opened { file, metadata }))
    } else {
        Ok(None)
    }
}

/// The bytes of the file at a place, or None where no file is there. The kind is asked before it is opened too, so that a pipe isn't
/// waited for. A size that is stated as 0, as under `/proc`, says nothing: each file is read to its end.
pub(crate) fn content_at<H: Host>(host: &H, place: &str) -> Result<Option<Bytes>, Trouble> {
    match kind_at(host, place)? {
        Kind::File => {}
        Kind::Nothing | Kind::Folder | Kind::Other => return Ok(None),
    }
    match opened_at(host, place)? {
        Some(opened) => content_of(host.alloc(), opened),
        None => Ok(None),
    }
}

/// The bytes of an open file, or None where it is one of a program that has ended.
fn content_of<F: Read + Drop>(
    alloc: Global,
    mut opened: Opened<F>,
) -> Result<Option<Bytes>, Trouble> {
    if opened.metadata.len() > LONGEST_FILE as u64 {
        return Err(too_long());
    }
    read_to_end(alloc, &mut opened.file)
}

fn read_to_end<F: Read>(alloc: Global, file: &mut F) -> Result<Option<Bytes>, Trouble> {
    let mut bytes = Bytes::new(alloc);
    let mut room = [0u8; ROOM];
    for _ in 0..u64::MAX {
        let count = match file.read(&mut room) {
            Ok(count) => count,
            Err(error) if says_nothing_is_there(&error) => return Ok(None),
            Err(error) => return Err(Trouble::from(error)),
        };
        if count == 0 {
            return Ok(Some(bytes));
        }
        if bytes.as_slice().len() > LONGEST_FILE - count {
            return Err(too_long());
        }
        bytes.extend(&room[..count])?;
    }
    Err(too_long())
}

fn too_long() -> Trouble {
    let words = "the file has more than 1,073,741,824 bytes";
    Trouble::System(Error::new(ErrorKind::FileTooLarge, words))
}
