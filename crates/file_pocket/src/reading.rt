use crate::PocketHost;
use desk_base::Bytes;
use edge_faults::Trouble;
use std::alloc::Global;
use std::fs::{self, File, Metadata, OpenFile};
use std::io::{self, Error, ErrorKind, Read};

/// How many bytes are read at a time.
const ROOM: usize = 16_384;

/// The text of the file at a place, or None where nothing stands there. Its kind is asked before it is opened, so that a pipe isn't waited
/// for, and again of what was opened.
pub(crate) fn text_at<H: PocketHost>(host: &H, place: &str) -> Result<Option<Bytes>, Trouble> {
    let Some(metadata) = there(fs::metadata(host, place))? else {
        return Ok(None);
    };
    check_file(&metadata)?;
    let Some(mut file) = there(File::open(host, place))? else {
        return Ok(None);
    };
    check_file(&file.metadata()?)?;
    Ok(Some(read_to_end(host.alloc(), &mut file)?))
}

/// What a call answers, or None where nothing stands at its place.
fn there<T: Drop>(answer: io::Result<T>) -> io::Result<Option<T>> {
    match answer {
        Ok(value) => Ok(Some(value)),
        Err(error) if error.kind() == ErrorKind::NotFound => Ok(None),
        Err(error) => Err(error),
    }
}

fn check_file(metadata: &Metadata) -> io::Result<()> {
    if metadata.is_file() {
        return Ok(());
    }
    Err(Error::new(ErrorKind::InvalidInput, "this is no file"))
}

fn read_to_end<F: Read>(alloc: Global, file: &mut F) -> Result<Bytes, Trouble> {
    let mut bytes = Bytes::new(alloc);
    let mut room = [0u8; ROOM];
    for _ in 0..u64::MAX {
        match file.read(&mut room) {
            Ok(0) => return Ok(bytes),
            Ok(count) => bytes.extend(&room[..count])?,
            Err(error) if error.kind() == ErrorKind::Interrupted => {}
            Err(error) => return Err(Trouble::from(error)),
        }
    }
    let words = "the file doesn't end";
    Err(Trouble::System(Error::new(ErrorKind::FileTooLarge, words)))
}
