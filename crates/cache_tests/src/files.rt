// What a file cache keeps, call by call. Each table is lent to one function that tells the first call that isn't answered so.
ghost use Rattle.relay_cache.specs.CachedFiles.{IsRoom};

use desk_base::Bytes;
use relay_cache::{FileCache, Kept};
use std::alloc::{AllocError, Global};
use std::test::Fail;

/// The SHA-256 of `abc`, as FIPS 180-4 has it.
const ABC: [u8; 32] = [
    0xba, 0x78, 0x16, 0xbf, 0x8f, 0x01, 0xcf, 0xea, 0x41, 0x41, 0x40, 0xde, 0x5d, 0xae, 0x22, 0x23,
    0xb0, 0x03, 0x61, 0xa3, 0x96, 0x17, 0x7a, 0x9c, 0xb4, 0x10, 0xff, 0x61, 0xf2, 0x00, 0x15, 0xad,
];

/// Those of `abd` and of no bytes, by another program.
const ABD: [u8; 32] = [
    0xa5, 0x2d, 0x15, 0x9f, 0x26, 0x2b, 0x2c, 0x6d, 0xdb, 0x72, 0x4a, 0x61, 0x84, 0x0b, 0xef, 0xc3,
    0x6e, 0xb3, 0x0c, 0x88, 0x87, 0x7a, 0x40, 0x30, 0xb6, 0x5c, 0xbe, 0x86, 0x29, 0x84, 0x49, 0xc9,
];

const EMPTY: [u8; 32] = [
    0xe3, 0xb0, 0xc4, 0x42, 0x98, 0xfc, 0x1c, 0x14, 0x9a, 0xfb, 0xf4, 0xc8, 0x99, 0x6f, 0xb9, 0x24,
    0x27, 0xae, 0x41, 0xe4, 0x64, 0x9b, 0x93, 0x4c, 0xa4, 0x95, 0x99, 0x1b, 0x78, 0x52, 0xb8, 0x55,
];

/// A file, by its bytes.
#[derive(Clone, Copy)]
enum File {
    Abc,
    Abd,
    Empty,
}

/// A call of a cache.
#[derive(Clone, Copy)]
enum Call {
    /// The file is looked for.
    Get,
    /// These bytes are put as the file.
    Put(&'static str),
}

/// A call for a file, its answer, and how many files there are then.
type Row = (Call, File, &'static str, usize);

/// With room for one file.
const ONE: [Row; 7] = [
    (Call::Get, File::Abc, "none", 0),
    (Call::Put("abd"), File::Abc, "wrong digest", 0),
    (Call::Put("abc"), File::Abc, "kept", 1),
    (Call::Get, File::Abc, "abc", 1),
    (Call::Put("abd"), File::Abd, "kept", 1),
    (Call::Get, File::Abc, "none", 1),
    (Call::Get, File::Abd, "abd", 1),
];

/// With room for two: the one that was asked for last stays, and a repeat drops none.
const TWO: [Row; 9] = [
    (Call::Put("abc"), File::Abc, "kept", 1),
    (Call::Put(""), File::Empty, "kept", 2),
    (Call::Put("abc"), File::Abc, "kept", 2),
    (Call::Get, File::Empty, "", 2),
    (Call::Get, File::Abc, "abc", 2),
    (Call::Put("abd"), File::Abd, "kept", 2),
    (Call::Get, File::Empty, "none", 2),
    (Call::Get, File::Abc, "abc", 2),
    (Call::Get, File::Abd, "abd", 2),
];

fn digest(file: File) -> [u8; 32] {
    match file {
        File::Abc => ABC,
        File::Abd => ABD,
        File::Empty => EMPTY,
    }
}

fn word(kept: Kept) -> &'static str {
    match kept {
        Kept::Kept => "kept",
        Kept::WrongDigest { stated, found } if stated == ABC && found == ABD => "wrong digest",
        Kept::WrongDigest { .. } => "another digest",
        Kept::Memory => "memory",
    }
}

/// Whether the bytes of a file are these, or none are wanted of one that isn't kept.
fn gets(cache: &mut FileCache, digest: &[u8; 32], wanted: &str) -> bool {
    match cache.get(digest) {
        Some(bytes) => bytes.as_slice() == wanted.as_bytes(),
        None => wanted == "none",
    }
}

/// Whether bytes that are put as a file are answered so.
fn puts(alloc: Global, cache: &mut FileCache, text: &str, digest: &[u8; 32], wanted: &str) -> bool {
    match Bytes::from_slice(alloc, text.as_bytes()) {
        Ok(bytes) => word(cache.put(digest, &bytes)) == wanted,
        Err(_) => false,
    }
}

/// Whether a cache answers a call as its row says.
fn answers(alloc: Global, cache: &mut FileCache, row: &Row) -> bool {
    let (call, file, wanted, length) = *row;
    let digest = digest(file);
    let is_so = match call {
        Call::Get => gets(cache, &digest, wanted),
        Call::Put(text) => puts(alloc, cache, text, &digest, wanted),
    };
    is_so && cache.len() == length
}

/// How many rows before the first call that a cache doesn't answer so.
fn first_of(alloc: Global, cache: &mut FileCache, rows: &[Row]) -> Option<usize> {
    for (before, row) in rows.iter().enumerate() {
        if !answers(alloc, cache, row) {
            return Some(before);
        }
    }
    None
}

/// That number in a new cache with this room.
fn first_wrong(alloc: Global, room: usize, rows: &[Row]) -> Result<Option<usize>, AllocError>
    requires { IsRoom room }
{
    let mut cache = FileCache::new(alloc, room)?;
    Ok(first_of(alloc, &mut cache, rows))
}

#[test]
fn with_room_for_one_the_last_file_is_kept(rt: HostRuntime) -> Result<(), Fail> {
    assert_eq!(rt; first_wrong(rt.alloc(), 1, &ONE)?, None);
    Ok(())
}

#[test]
fn the_files_that_were_asked_for_last_are_kept(rt: HostRuntime) -> Result<(), Fail> {
    assert_eq!(rt; first_wrong(rt.alloc(), 2, &TWO)?, None);
    Ok(())
}
