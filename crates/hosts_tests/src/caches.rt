// What a relay with a file cache answers to one who asks for files, by hand from the rules in docs/HTTP.md. What is dear to own is made in
// one function, and lent to the one that goes through the rows of a case.
ghost use Rattle.relay_cache.specs.CachedFiles.{IsRoom};

use crate::called::{ABC, answers};
use desk_base::Bytes;
use desk_door::MemoryLink;
use desk_hosts::{Asking, Paths, RelayHost};
use relay_cache::FileCache;
use relay_core::Relay;
use std::alloc::{AllocError, Global};
use std::mem::drop;
use std::test::Fail;

/// The path of the file `abd`, by another program.
const ABD: &str = "/files/a52d159f262b2c6ddb724a61840befc36eb30c88877a4030b65cbe86298449c9";

/// The replies of an upstream.
const HAS_ABC: &str = "HTTP/1.1 200 OK\r\nContent-Length: 3\r\n\r\nabc";

const HAS_ABD: &str = "HTTP/1.1 200 OK\r\nContent-Length: 3\r\n\r\nabd";

const HAS_NONE: &str = "HTTP/1.1 404 Not Found\r\nContent-Length: 3\r\n\r\nabc";

/// A path that is asked for, the status and the body of the answer, and how many requests the upstream was asked until then.
type Row = (&'static str, u16, &'static str, usize);

/// What the upstream replies, and what is asked of the relay.
type Case = (&'static [&'static str], &'static [Row]);

/// With room for one file.
const ONE: [Case; 5] = [
    // asked once for the same file
    (&[HAS_ABC], &[(ABC, 200, "abc", 1), (ABC, 200, "abc", 1)]),
    // a file of another digest isn't kept
    (
        &[HAS_ABD, HAS_ABC],
        &[(ABC, 502, "bad answer\n", 1), (ABC, 200, "abc", 2)],
    ),
    // neither is what comes with a 404
    (
        &[HAS_NONE, HAS_ABC],
        &[(ABC, 404, "no such\n", 1), (ABC, 200, "abc", 2)],
    ),
    // an upstream that is gone: what is kept is still answered
    (
        &[HAS_ABC],
        &[
            (ABC, 200, "abc", 1),
            (ABD, 502, "link fault\n", 2),
            (ABC, 200, "abc", 2),
        ],
    ),
    // two files by turns, with room for one
    (
        &[HAS_ABC, HAS_ABD, HAS_ABC],
        &[
            (ABC, 200, "abc", 1),
            (ABD, 200, "abd", 2),
            (ABC, 200, "abc", 3),
        ],
    ),
];

/// With room for both.
const TWO: [Case; 1] = [(
    &[HAS_ABC, HAS_ABD],
    &[
        (ABC, 200, "abc", 1),
        (ABD, 200, "abd", 2),
        (ABC, 200, "abc", 2),
        (ABD, 200, "abd", 2),
    ],
)];

/// Whether a relay gives the answer of a row.
fn gives(
    alloc: Global,
    paths: &Paths,
    relay: &mut Relay,
    link: &mut MemoryLink,
    cache: &mut Option<FileCache>,
    row: &Row,
) -> bool {
    let (path, status, text, _) = *row;
    let mut host = RelayHost {
        alloc,
        paths,
        relay,
        link,
        cache,
    };
    answers(&mut host, &(Asking::Get, path, "", status, text))
}

/// Whether it does, and asked its upstream so many requests until then.
fn is_so(
    alloc: Global,
    paths: &Paths,
    relay: &mut Relay,
    link: &mut MemoryLink,
    cache: &mut Option<FileCache>,
    row: &Row,
) -> bool {
    gives(alloc, paths, relay, link, cache, row) && link.asked().len() == row.3
}

/// How many rows before the first that a relay doesn't answer so.
fn first_other(
    alloc: Global,
    relay: &mut Relay,
    link: &mut MemoryLink,
    cache: &mut Option<FileCache>,
    rows: &[Row],
) -> Option<usize> {
    let paths = Paths::new(alloc);
    for (before, row) in rows.iter().enumerate() {
        if !is_so(alloc, &paths, relay, link, cache, row) {
            return Some(before);
        }
    }
    None
}

fn replies(alloc: Global, texts: &[&str]) -> Result<Vec<Bytes>, AllocError> {
    let mut replies = Vec::new(alloc);
    for text in texts {
        replies.push(Bytes::from_slice(alloc, text.as_bytes())?)?;
    }
    Ok(replies)
}

/// That number in a case, of a relay with room for so many files.
fn first_in(alloc: Global, room: usize, case: &Case) -> Result<Option<usize>, AllocError>
    requires { IsRoom room }
{
    let (texts, rows) = *case;
    let replies = replies(alloc, texts)?;
    let mut cache = Some(FileCache::new(alloc, room)?);
    let mut link = MemoryLink::new(alloc, replies, Vec::new(alloc));
    let mut relay = Relay::of_the_desk(alloc);
    let first = first_other(alloc, &mut relay, &mut link, &mut cache, rows);
    drop(relay);
    drop(link);
    drop(cache);
    Ok(first)
}

/// The number of the first case with such a row, and of that row.
fn first_case(
    alloc: Global,
    room: usize,
    cases: &[Case],
) -> Result<Option<(usize, usize)>, AllocError>
    requires { IsRoom room }
{
    for (number, case) in cases.iter().enumerate() {
        if let Some(row) = first_in(alloc, room, case)? {
            return Ok(Some((number, row)));
        }
    }
    Ok(None)
}

#[test]
fn a_kept_file_is_answered_without_the_upstream(rt: HostRuntime) -> Result<(), Fail> {
    assert_eq!(rt; first_case(rt.alloc(), 1, &ONE)?, None);
    assert_eq!(rt; first_case(rt.alloc(), 2, &TWO)?, None);
    Ok(())
}
