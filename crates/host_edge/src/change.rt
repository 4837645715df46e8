use crate::kind::{Kind, kind_at, there};
use crate::place::{folder_of, place_of};
use crate::read::opened_at;
use crate::replace::replace;
use crate::rights::{Rights, rights_at, rights_of_copy, same_rights};
use crate::undone::Undone;
use crate::{Host, HostMachine};
use bf_world::{Reason, is_part, is_path, joined};
use edge_faults::Trouble;
use rel_lexer::Text;
use std::alloc::Global;
use std::fs::{self, Metadata, OpenFile, OpenOptions};
use std::io::{self, ErrorKind, Write};
use std::mem::drop;

/// The folder in which fetched files are placed.
const DOWNLOAD: &str = "__Download";

/// What is done at one place.
#[derive(Clone, Copy)]
pub(crate) enum Deed<'a> {
    Write(&'a [u8]),
    Append(&'a [u8]),
    Delete,
    MakeFolder,
    DropFolder,
}

/// What is done with a file that is put at another place.
#[derive(Clone, Copy)]
pub(crate) enum Transfer {
    Copy,
    Move,
}

/// The commands on files and folders. The checks are those of a described machine, in its order. What the system refuses behind them is
/// trouble. What owns a place drops it once, and hands it to what needs it.
impl<H: Host> HostMachine<H> {
    /// Where a path other than `/` lies.
    fn free_place(&self, path: &Text) -> Result<Text, Undone> {
        if path.as_str() == "/" {
            return Err(Undone::Refused(Reason::BadPath));
        }
        match place_of(self.host.alloc(), self.work.as_str(), path.as_str())? {
            Some(place) => Ok(place),
            None => Err(Undone::Refused(Reason::BadPath)),
        }
    }

    fn kind(&self, place: &Text) -> Result<Kind, Undone> {
        Ok(kind_at(&self.host, place.as_str())?)
    }

    /// Checks that the folder in which a place lies is there.
    fn check_folder(&self, place: &Text) -> Result<(), Undone> {
        match kind_at(&self.host, folder_of(place.as_str()))? {
            Kind::Folder => Ok(()),
            _ => Err(Undone::Refused(Reason::NoSuchFolder)),
        }
    }

    /// Checks that nothing stands at a place, or a file.
    fn check_no_other(&self, place: &Text) -> Result<(), Undone> {
        match self.kind(place)? {
            Kind::Nothing | Kind::File => Ok(()),
            Kind::Folder | Kind::Other => Err(Undone::Refused(Reason::AlreadyThere)),
        }
    }

    /// Puts bytes at a place. What takes a file's place keeps its rights.
    fn put_content(&self, place: &Text, content: &[u8]) -> Result<(), Trouble> {
        let rights = rights_at(&self.host, place.as_str())?;
        let mut content = content;
        replace(&self.host, place.as_str(), &mut content, rights)
    }

    /// Does something at a path.
    pub(crate) fn change_at(&self, path: &Text, deed: Deed<'_>) -> Result<(), Undone> {
        let place = self.free_place(path)?;
        let done = self.change_place(&place, deed);
        drop(place);
        done
    }

    fn change_place(&self, place: &Text, deed: Deed<'_>) -> Result<(), Undone> {
        match deed {
            Deed::Write(content) => self.write(place, content),
            Deed::Append(content) => self.append(place, content),
            Deed::Delete => self.delete(place),
            Deed::MakeFolder => self.make_folder(place),
            Deed::DropFolder => self.drop_folder(place),
        }
    }

    fn write(&self, place: &Text, content: &[u8]) -> Result<(), Undone> {
        self.check_folder(place)?;
        self.put_file(place, content)
    }

    fn append(&self, place: &Text, content: &[u8]) -> Result<(), Undone> {
        self.check_folder(place)?;
        self.check_no_other(place)?;
        append_to(&self.host, place.as_str(), content)
    }

    fn delete(&self, place: &Text) -> Result<(), Undone> {
        match self.kind(place)? {
            // a link that leads nowhere goes too
            Kind::Nothing | Kind::File => {}
            Kind::Folder | Kind::Other => return Err(Undone::Refused(Reason::NotAFile)),
        }
        there(fs::remove_file(&self.host, place.as_str()))?;
        Ok(())
    }

    /// Puts the file at one path at another.
    pub(crate) fn transfer(&self, how: Transfer, from: &Text, to: &Text) -> Result<(), Undone> {
        let from = self.free_place(from)?;
        let done = self.transfer_from(how, &from, to);
        drop(from);
        done
    }

    fn transfer_from(&self, how: Transfer, from: &Text, to: &Text) -> Result<(), Undone> {
        let to = self.free_place(to)?;
        let done = self.transfer_places(how, from, &to);
        drop(to);
        done
    }

    fn transfer_places(&self, how: Transfer, from: &Text, to: &Text) -> Result<(), Undone> {
        match self.kind(from)? {
            Kind::File => {}
            _ => return Err(Undone::Refused(Reason::NoSuchFile)),
        }
        match self.kind(to)? {
            Kind::Nothing => {}
            _ => return Err(Undone::Refused(Reason::AlreadyThere)),
        }
        self.check_folder(to)?;
        match how {
            Transfer::Copy => self.copy_file(how, from, to),
            Transfer::Move => self.move_file(from, to),
        }
    }

    /// Puts a file's content at another place. What was opened may be no file any more.
    fn copy_file(&self, how: Transfer, from: &Text, to: &Text) -> Result<(), Undone> {
        let Some(mut source) = opened_at(&self.host, from.as_str())? else {
            return Err(Undone::Refused(Reason::NoSuchFile));
        };
        let rights = rights_of(how, &source.metadata);
        replace(&self.host, to.as_str(), &mut source.file, rights)?;
        Ok(())
    }

    /// Moves a file; one that comes from another file system is copied, with all its rights, and then deleted.
    fn move_file(&self, from: &Text, to: &Text) -> Result<(), Undone> {
        match fs::rename(&self.host, from.as_str(), to.as_str()) {
            Ok(()) => Ok(()),
            Err(error) if error.kind() == ErrorKind::CrossesDevices => {
                self.copy_file(Transfer::Move, from, to)?;
                self.remove_moved(from, to)
            }
            Err(error) => Err(Undone::from(error)),
        }
    }

    /// Deletes a file of which a copy stands elsewhere; where it can't be, the copy goes.
    fn remove_moved(&self, from: &Text, to: &Text) -> Result<(), Undone> {
        match there(fs::remove_file(&self.host, from.as_str())) {
            Ok(_) => Ok(()),
            Err(error) => {
                let _ = fs::remove_file(&self.host, to.as_str());
                // the copy may stand there all the same, so this can't be want of memory
                Err(Undone::Trouble(Trouble::System(error)))
            }
        }
    }

    fn make_folder(&self, place: &Text) -> Result<(), Undone> {
        match self.kind(place)? {
            Kind::Nothing => {}
            Kind::Folder => return Ok(()),
            Kind::File | Kind::Other => return Err(Undone::Refused(Reason::AlreadyThere)),
        }
        self.check_folder(place)?;
        fs::create_dir(&self.host, place.as_str())?;
        Ok(())
    }

    fn drop_folder(&self, place: &Text) -> Result<(), Undone> {
        match self.kind(place)? {
            Kind::Folder => {}
            _ => return Err(Undone::Refused(Reason::NoSuchFolder)),
        }
        match fs::remove_dir(&self.host, place.as_str()) {
            Ok(()) => Ok(()),
            Err(error) if error.kind() == ErrorKind::DirectoryNotEmpty => {
                Err(Undone::Refused(Reason::NotEmpty))
            }
            // a link to a folder
            Err(error) if error.kind() == ErrorKind::NotADirectory => {
                Err(Undone::Refused(Reason::NoSuchFolder))
            }
            Err(error) => Err(Undone::from(error)),
        }
    }

    /// Puts bytes under a name into the folder of fetched files.
    pub(crate) fn place_file(&self, name: &str, content: &[u8]) -> Result<(), Undone> {
        check_name(self.host.alloc(), name)?;
        let folder = joined(self.host.alloc(), self.work.as_str(), DOWNLOAD)?;
        let done = self.place_in(&folder, name, content);
        drop(folder);
        done
    }

    fn place_in(&self, folder: &Text, name: &str, content: &[u8]) -> Result<(), Undone> {
        let place = joined(self.host.alloc(), folder.as_str(), name)?;
        let done = self.place_at(folder, &place, content);
        drop(place);
        done
    }

    /// The folder is made where it is missing, and taken away again where the bytes can't be put there.
    fn place_at(&self, folder: &Text, place: &Text, content: &[u8]) -> Result<(), Undone> {
        match self.kind(folder)? {
            Kind::Nothing => {}
            Kind::Folder => return self.put_file(place, content),
            Kind::File | Kind::Other => return Err(Undone::Refused(Reason::AlreadyThere)),
        }
        fs::create_dir(&self.host, folder.as_str())?;
        match self.put_content(place, content) {
            Ok(()) => Ok(()),
            Err(trouble) => {
                let _ = fs::remove_dir(&self.host, folder.as_str());
                Err(Undone::Trouble(trouble))
            }
        }
    }

    /// Puts bytes at a place whose folder is there.
    pub(crate) fn put_file(&self, place: &Text, content: &[u8]) -> Result<(), Undone> {
        self.check_no_other(place)?;
        self.put_content(place, content)?;
        Ok(())
    }
}

/// The rights of what a file is put at another place as.
fn rights_of(how: Transfer, metadata: &Metadata) -> Rights {
    match how {
        Transfer::Copy => rights_of_copy(metadata),
        Transfer::Move => same_rights(metadata),
    }
}

/// Appends bytes to the file at a place, which is made where it is missing. What was opened may be no file any more.
fn append_to<H: Host>(host: &H, place: &str, content: &[u8]) -> Result<(), Undone> {
    let mut options = OpenOptions::new();
    options.append(true).create(true);
    let mut file = options.open(host, place)?;
    match append_all(&mut file, content) {
        Ok(true) => Ok(()),
        Ok(false) => Err(Undone::Refused(Reason::AlreadyThere)),
        // the file may have been made and a front appended, so this can't be want of memory
        Err(error) => Err(Undone::Trouble(Trouble::System(error))),
    }
}

/// Appends bytes to what was opened, and answers whether that is a file.
fn append_all<F: OpenFile + Write>(file: &mut F, content: &[u8]) -> io::Result<bool> {
    if !file.metadata()?.is_file() {
        return Ok(false);
    }
    file.write_all(content)?;
    Ok(true)
}

/// Checks that a fetched file of this name has a path.
fn check_name(alloc: Global, name: &str) -> Result<(), Undone> {
    let path = joined(alloc, DOWNLOAD, name)?;
    if is_part(name) && is_path(path.as_str()) {
        Ok(())
    } else {
        Err(Undone::Refused(Reason::BadPath))
    }
}
