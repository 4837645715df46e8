use crate::Host;
use crate::kind::{metadata_at, there};
use crate::list::entries_at;
use crate::place::LONGEST_NUMBER;
use bf_world::{Entry, joined};
use std::fs::{self, Metadata, OpenFile, Permissions};
use std::io;
use std::mem::drop;
use std::os::unix::fs::{MetadataExt, PermissionsExt, chown};

/// The bits of a mode: who may read, write and run a file, and set-user, set-group and sticky.
const MODE: u32 = 0o7777;

/// Those who may read, write and run a file.
const PLAIN: u32 = 0o777;

/// Where the system shows what this process has open, each by its number.
const DESCRIPTORS: &str = "/proc/self/fd";

/// Whom a file belongs to.
#[derive(Clone, Copy)]
pub(crate) struct Owner {
    user: u32,
    group: u32,
}

/// Whom a new file belongs to and what may be done with it.
#[derive(Clone, Copy)]
pub(crate) enum Rights {
    /// As any new file of whoever runs the desk.
    New,
    /// It is of whoever runs the desk, and has this mode without the set-user, set-group and sticky bits.
    Mode(u32),
    /// It has this owner and this mode; without those three bits where it can't be given to the owner.
    Of(Owner, u32),
}

/// The rights of a copy of what this is of.
pub(crate) fn rights_of_copy(metadata: &Metadata) -> Rights {
    Rights::Mode(metadata.mode())
}

/// The rights of what this is of.
pub(crate) fn same_rights(metadata: &Metadata) -> Rights {
    Rights::Of(owner_of(metadata), metadata.mode())
}

fn owner_of(metadata: &Metadata) -> Owner {
    Owner {
        user: metadata.uid(),
        group: metadata.gid(),
    }
}

/// The rights of what takes the place of what stands there: the same. A link's are those of what it leads to, without the three bits, since
/// whoever may make a link here needs no leave of what it leads to.
pub(crate) fn rights_at<H: Host>(host: &H, place: &str) -> io::Result<Rights> {
    let Some(replaced) = there(fs::symlink_metadata(host, place))? else {
        return Ok(Rights::New);
    };
    if !replaced.is_symlink() {
        return Ok(same_rights(&replaced));
    }
    match metadata_at(host, place)? {
        Some(behind) => Ok(Rights::Of(owner_of(&behind), behind.mode() & PLAIN)),
        None => Ok(Rights::New),
    }
}

/// Gives an open file its rights: its owner first, since that takes the three bits away.
pub(crate) fn give<H: Host>(host: &H, file: &H::File, rights: Rights) -> io::Result<()> {
    let mode = match rights {
        Rights::New => return Ok(()),
        Rights::Mode(mode) => mode & PLAIN,
        Rights::Of(owner, mode) => mode & mode_bits(is_given_to(host, file, owner)?),
    };
    file.set_permissions(Permissions::from_mode(mode))
}

fn mode_bits(with_owner: bool) -> u32 {
    if with_owner { MODE } else { PLAIN }
}

/// Gives an open file to an owner, and answers whether it is his then. Where it can't be given to the user, it may still be given to the
/// group.
fn is_given_to<H: Host>(host: &H, file: &H::File, owner: Owner) -> io::Result<bool> {
    let metadata = file.metadata()?;
    if metadata.uid() == owner.user && metadata.gid() == owner.group {
        return Ok(true);
    }
    Ok(is_found_and_given(host, &metadata, owner))
}

/// Finds the open file that this is of among what this process has open, and gives it to an owner, likewise.
fn is_found_and_given<H: Host>(host: &H, metadata: &Metadata, owner: Owner) -> bool {
    let Ok(Some(descriptors)) = entries_at(host, DESCRIPTORS, LONGEST_NUMBER) else {
        return false;
    };
    let given = is_given_by(host, descriptors.as_slice(), metadata, owner);
    drop(descriptors);
    given
}

/// The same among these.
fn is_given_by<H: Host>(
    host: &H,
    descriptors: &[Entry],
    metadata: &Metadata,
    owner: Owner,
) -> bool {
    for descriptor in descriptors {
        if let Some(given) = given_as(host, descriptor.name.as_str(), metadata, owner) {
            return given;
        }
    }
    false
}

/// Gives what has this number to an owner, where it is what this is of, and answers whether it is his then. None where it is another file.
fn given_as<H: Host>(host: &H, number: &str, metadata: &Metadata, owner: Owner) -> Option<bool> {
    let Ok(place) = joined(host.alloc(), DESCRIPTORS, number) else {
        return Some(false);
    };
    let given = given_at(host, place.as_str(), metadata, owner);
    drop(place);
    given
}

/// The same of what stands at this place.
fn given_at<H: Host>(host: &H, place: &str, metadata: &Metadata, owner: Owner) -> Option<bool> {
    if !is_same(metadata, &fs::metadata(host, place)) {
        return None;
    }
    if chown(host, place, Some(owner.user), Some(owner.group)).is_ok() {
        return Some(true);
    }
    let _ = chown(host, place, None, Some(owner.group));
    Some(false)
}

/// Whether what was asked for is this very file.
fn is_same(metadata: &Metadata, asked: &io::Result<Metadata>) -> bool {
    match asked {
        Ok(other) => metadata.dev() == other.dev() && metadata.ino() == other.ino(),
        Err(_) => false,
    }
}
