ghost use Rattle.std.specs.Prelude.{◌≡◌, length, [], IfOk, IfSome, OnOk, OnErr, None, option_copied, bytes_eq};
ghost use Rattle.std.specs.Borrow.{sem};
ghost use Rattle.std.specs.Map.{lookup};
ghost use Rattle.std.specs.NonZero.{non_zero_usize_get};
ghost use Rattle.lru.specs.LruCache.{lru_cache, put_entries};
ghost use Rattle.sha2.specs.Sha256.{sha256};
ghost use Rattle.relay_cache.specs.CachedFiles.{IsCache, IsRoom, PutsFile, after_ask, cached, with_files};

use crate::kept::Kept;
use desk_base::Bytes;
use lru::LruCache;
use sha2::{Digest, Sha256};
use std::alloc::{AllocError, Global};
use std::marker::Model;
use std::num::NonZeroUsize;

/// Files by their SHA-256, the one that was asked for last first. Contracts see how many there is room for, and the list of them.
#[derive(Drop)]
pub struct FileCache {
    files: LruCache<[u8; 32], Bytes>,
}

impl Model for FileCache {
    ghost use Rattle.relay_cache.specs.CachedFiles.{CacheState, IsGenuine};

    ghost Value = { CacheState };

    ghost view = { λ c. record { room = c.files.cap; files = c.files.entries } };

    ghost invariant = { λ c. IsGenuine c.files.cap c.files.entries };
}

impl FileCache {
    ghost use Rattle.relay_cache.specs.Lending.{EndsAs};

    /// No files, and room for so many.
    pub fn new(alloc: Global, room: usize) -> Result<FileCache, AllocError>
        requires { IsRoom room }
        ensures { IfOk result (λ cache. cache ≡ record { room = room; files = [] }) }
    {
        Ok(FileCache {
            files: LruCache::new(alloc, places(room))?,
        })
    }

    /// The bytes of the file of this digest, which goes first where it is kept. It takes no memory.
    pub fn get(&mut self, digest: &[u8; 32]) -> Option<&Bytes>
        ensures* after { sem 𝓛 (EndsAs self.entry (with_files self.old (after_ask self.old digest.now None))) }
        ensures found { option_copied result ≡ cached digest.now self.old.files }
        ensures genuine { IfSome (cached digest.now self.old.files) (λ bytes. sha256 bytes ≡ digest.now) }
    {
        self.files.promote(digest);
        self.files.peek(digest)
    }

    /// Keeps the file of this digest as the first one, and lets the last one go where there are then too many. Where one of this digest is
    /// kept, that goes first, and takes no memory.
    pub fn put(&mut self, digest: &[u8; 32], bytes: &Bytes) -> Kept
        ensures { PutsFile self.old digest.now bytes.now result self.new }
    {
        let found = Sha256::digest(bytes.as_slice());
        if found != *digest {
            return Kept::WrongDigest {
                stated: *digest,
                found,
            };
        }
        if self.files.promote(digest) {
            return Kept::Kept;
        }
        match put_new(&mut self.files, digest, bytes) {
            Ok(()) => Kept::Kept,
            Err(_) => Kept::Memory,
        }
    }

    /// How many files are kept. It takes no memory.
    pub fn len(&self) -> usize
        ensures len { result ≡ length self.now.files }
        ensures valid { IsCache self.now }
    {
        self.files.len()
    }
}

/// The number of places of a cache with this room.
fn places(room: usize) -> NonZeroUsize
    requires { IsRoom room }
    ensures { non_zero_usize_get result ≡ room }
{
    NonZeroUsize::new(room).unwrap_or(NonZeroUsize::MIN)
}

/// Puts a copy of these bytes under a digest that isn't there. An error changes nothing.
fn put_new(
    files: &mut LruCache<[u8; 32], Bytes>,
    digest: &[u8; 32],
    bytes: &Bytes,
) -> Result<(), AllocError>
    requires { lookup (bytes_eq digest.now) files.old.entries ≡ None }
    ensures ok { OnOk result (files.new ≡ lru_cache (put_entries bytes_eq files.old digest.now bytes.now) files.old.cap) }
    ensures err { OnErr result (files.new ≡ files.old) }
{
    files.put(*digest, bytes.copy()?)?;
    Ok(())
}
