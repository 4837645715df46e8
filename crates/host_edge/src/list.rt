ghost use Rattle.std.specs.Prelude.{IfOk, IfSome};
ghost use Rattle.host_edge.specs.Ordered.{AreEntries};

use crate::Host;
use crate::kind::{says_nothing_is_there, there};
use crate::machine::MACHINE;
use crate::ordered::Ordered;
use bf_world::{Entry, EntryList};
use edge_faults::{Trouble, tell};
use line_forms::read_part;
use rel_lexer::Text;
use std::alloc::{AllocError, Global};
use std::fs;
use std::io::{Error, ErrorKind, Read};
use std::mem::drop;

/// How many bytes of names are read at a time.
const ROOM: usize = 4096;

/// A folder whose names are read. A walk looks at hundreds of thousands of them, so the path of each is made in the same room.
#[derive(Drop)]
struct Listing<'a> {
    /// The folder's path, with a `/` behind it.
    folder: &'a str,
    /// The most bytes of a name that is shown.
    longest: usize,
    /// The path of the entry at hand.
    path: String,
}

/// The entries of the folder at a place whose names have at most `longest` bytes, or None where no folder is there. Left out are names
/// that aren't UTF-8 or not one part of a path, and what has no kind when it is asked for it.
pub(crate) fn entries_at<H: Host>(
    host: &H,
    place: &str,
    longest: usize,
) -> Result<Option<EntryList>, Trouble>
    ensures { IfOk result (λ entries. IfSome entries AreEntries) }
{
    let folder = with_slash(host.alloc(), place)?;
    let entries = entries_of(host, folder.as_str(), longest);
    drop(folder);
    match entries? {
        Some(entries) => Ok(Some(in_order(host.alloc(), entries)?)),
        None => Ok(None),
    }
}

/// A folder's path with a `/` behind it, by which the system follows a link to a folder.
fn with_slash(alloc: Global, place: &str) -> Result<Text, AllocError> {
    let mut folder = Text::from_str(alloc, place)?;
    if !place.ends_with('/') {
        folder.push("/")?;
    }
    Ok(folder)
}

/// The entries in no order.
fn entries_of<H: Host>(
    host: &H,
    folder: &str,
    longest: usize,
) -> Result<Option<Vec<Entry>>, Trouble> {
    let Some(mut names) = there(host.open_dir(folder))? else {
        return Ok(None);
    };
    let mut entries = Vec::new(host.alloc());
    let mut listing = Listing {
        folder,
        longest,
        path: String::new(host.alloc()),
    };
    let read = listing.read(host, &mut names, &mut entries);
    drop(names);
    drop(listing);
    read?;
    Ok(Some(entries))
}

impl<'a> Listing<'a> {
    /// Adds the entries of all names that are still to be read.
    fn read<H: Host>(
        &mut self,
        host: &H,
        names: &mut H::Dir,
        entries: &mut Vec<Entry>,
    ) -> Result<(), Trouble> {
        let mut room = [0u8; ROOM];
        for _ in 0..u64::MAX {
            let count = match names.read(&mut room) {
                Ok(count) => count,
                Err(error) if says_nothing_is_there(&error) => return Ok(()),
                Err(error) => return Err(Trouble::from(error)),
            };
            if count == 0 {
                return Ok(());
            }
            self.add_all(host, &room[..count], entries)?;
        }
        Ok(())
    }

    /// Adds the entries of these names, each of which ends with a NUL.
    fn add_all<H: Host>(
        &mut self,
        host: &H,
        names: &[u8],
        entries: &mut Vec<Entry>,
    ) -> Result<(), Trouble> {
        for name in names.split(|byte| *byte == 0) {
            self.add(host, name, entries)?;
        }
        Ok(())
    }

    /// Adds the entry of this name, where it is one that is shown.
    fn add<H: Host>(
        &mut self,
        host: &H,
        name: &[u8],
        entries: &mut Vec<Entry>,
    ) -> Result<(), Trouble> {
        if name.len() > self.longest {
            return Ok(());
        }
        let Some(name) = read_part(name) else {
            return Ok(());
        };
        self.name_entry(name)?;
        if let Some(folder) = self.is_folder(host)? {
            let name = Text::from_str(host.alloc(), name)?;
            entries
                .push(Entry { name, folder })
                .map_err(AllocError::from)?;
        }
        Ok(())
    }

    /// Makes the path that of the entry with this name.
    fn name_entry(&mut self, name: &str) -> Result<(), AllocError> {
        self.path.clear();
        self.path.push_str(self.folder)?;
        self.path.push_str(name)?;
        Ok(())
    }

    /// Whether the entry at hand is a folder, and not only a link to one. None where it is gone, and where it can't be asked, which is
    /// told.
    fn is_folder<H: Host>(&self, host: &H) -> Result<Option<bool>, Trouble> {
        match fs::symlink_metadata(host, self.path.as_str()) {
            Ok(metadata) => Ok(Some(metadata.is_dir())),
            Err(error) if says_nothing_is_there(&error) => Ok(None),
            Err(error) if error.kind() == ErrorKind::OutOfMemory => Err(Trouble::Memory),
            Err(error) => {
                self.tell_passed_over(host, &error);
                Ok(None)
            }
        }
    }

    /// Tells that the entry at hand is passed over.
    fn tell_passed_over<H: Host>(&self, host: &H, error: &Error) {
        tell(
            host,
            MACHINE,
            "look",
            self.path.as_str(),
            format_args!("it is passed over: {error}"),
        );
    }
}

/// The entries in byte order of their names, without those that are no part of a path.
fn in_order(alloc: Global, mut entries: Vec<Entry>) -> Result<EntryList, Trouble>
    ensures { IfOk result AreEntries }
{
    entries.sort_unstable_by(|a, b| a.name.as_str().cmp(b.name.as_str()));
    let mut ordered = Ordered::new(alloc);
    for entry in entries {
        ordered.push(entry)?;
    }
    Ok(ordered.into_list())
}
