ghost use Rattle.std.specs.Prelude.{◌≡◌, IfOk};

use crate::result_rows::ResultRows;
use crate::site_versions::SiteVersions;
use desk_base::Bytes;
use std::alloc::AllocError;

/// What a server answers.
#[derive(Drop)]
pub enum Reply {
    /// It is kept, or stopped, from now on.
    Ok,
    /// It was so already. Nothing is changed, here and below.
    Again,
    /// The SHA-256 of the file, which is kept, from now on or already.
    Digest([u8; 32]),
    /// The sites, in byte order of their names.
    Sites(SiteVersions),
    /// The text of the site.
    Site(Bytes),
    /// The version of the site isn't greater.
    Same,
    /// The bytes of the file.
    Content(Bytes),
    /// The results of the computer, in ascending order of actions.
    Rows(ResultRows),
    /// The line at which the text is refused, counted from 1; 0 for the whole of a text that is too long.
    BadText(u32),
    /// Another action of this id, or another report of this computer and number, is kept. Its text as it came has this SHA-256.
    Conflict([u8; 32]),
    /// There is no such site, action, file or computer.
    NoSuch,
    /// The site is kept in this version, which isn't less.
    Older(u64),
    /// It would exceed this limit.
    Full(u64),
    /// A call of the keeper failed.
    KeeperFault,
    /// Memory ran out.
    Memory,
}

impl Reply {
    /// The same reply once more. The error is want of memory.
    pub fn copy(&self) -> Result<Reply, AllocError>
        ensures { IfOk result (λ reply. reply ≡ self.now) }
    {
        Ok(match self {
            Reply::Ok => Reply::Ok,
            Reply::Again => Reply::Again,
            Reply::Digest(digest) => Reply::Digest(*digest),
            Reply::Sites(sites) => Reply::Sites(sites.copy()?),
            Reply::Site(text) => Reply::Site(text.copy()?),
            Reply::Same => Reply::Same,
            Reply::Content(bytes) => Reply::Content(bytes.copy()?),
            Reply::Rows(results) => Reply::Rows(results.copy()?),
            Reply::BadText(line) => Reply::BadText(*line),
            Reply::Conflict(digest) => Reply::Conflict(*digest),
            Reply::NoSuch => Reply::NoSuch,
            Reply::Older(version) => Reply::Older(*version),
            Reply::Full(limit) => Reply::Full(*limit),
            Reply::KeeperFault => Reply::KeeperFault,
            Reply::Memory => Reply::Memory,
        })
    }
}
