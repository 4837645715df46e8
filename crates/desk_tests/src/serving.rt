//! How `serve` ends and what it writes, over a door and a keeper in memory.
use crate::runs::run;
use desk_base::{Bytes, MemorySink, MemorySource};
use desk_door::MemoryDoor;
use desk_keep::MemoryKeeper;
use std::alloc::Global;
use std::mem::drop;

/// What a peer says that asks for the list of sites, and what is written to it where there are none.
const SITES: &str = "GET /sites HTTP/1.1\r\nHost: desk\r\n\r\n";

const NO_SITES: &[u8] = b"HTTP/1.1 200 OK\r\nContent-Length: 0\r\nConnection: close\r\n\r\n";

/// A run, what the peers say in turn, the number of the status with which it ends, and what it prints. The keeper's reading calls, the
/// door's calls and the sink's writes that fail are counted from 1. The door's first call opens it, and its second one begins
/// a conversation.
#[derive(Clone, Copy)]
struct Row {
    words: &'static [&'static str],
    says: &'static [&'static str],
    keeper: &'static [u32],
    door: &'static [u32],
    writes: &'static [u32],
    status: u8,
    wanted: &'static [u8],
}

/// Worked out by hand from the tables of commands and statuses.
const ROWS: [Row; 7] = [
    Row {
        words: &["serve", "8080", "k", "1"],
        says: &[SITES],
        keeper: &[],
        door: &[],
        writes: &[],
        status: 0,
        wanted: b"answered 200\n",
    },
    Row {
        words: &["serve", "65535", "k", "3"],
        says: &[
            "",
            "GET /sites HTTP/1.1\r\n\r\n",
            "GET /site HTTP/1.1\r\nHost: desk\r\n\r\n",
        ],
        keeper: &[],
        door: &[],
        writes: &[],
        status: 0,
        wanted: b"closed\nanswered 400\nanswered 404\n",
    },
    Row {
        words: &["serve", "1", "k", "2"],
        says: &[SITES],
        keeper: &[],
        door: &[],
        writes: &[],
        status: 8,
        wanted: b"answered 200\n",
    },
    Row {
        words: &["serve", "8080", "k", "1"],
        says: &[SITES],
        keeper: &[1],
        door: &[1],
        writes: &[],
        status: 7,
        wanted: b"",
    },
    Row {
        words: &["serve", "8080", "k", "1"],
        says: &[SITES],
        keeper: &[],
        door: &[1],
        writes: &[],
        status: 8,
        wanted: b"",
    },
    Row {
        words: &["serve", "8080", "k", "2"],
        says: &[SITES, SITES],
        keeper: &[2],
        door: &[3],
        writes: &[],
        status: 0,
        wanted: b"door fault\nanswered 500\n",
    },
    Row {
        words: &["serve", "8080", "k", "1"],
        says: &[SITES],
        keeper: &[],
        door: &[],
        writes: &[1],
        status: 4,
        wanted: b"",
    },
];

/// Words that ask for nothing: a number that is out of its range or spelled otherwise, an empty name, a word too few.
const NO_COMMANDS: [&[&str]; 7] = [
    &["serve", "0", "k", "1"],
    &["serve", "65536", "k", "1"],
    &["serve", "01", "k", "1"],
    &["serve", "8080", "", "1"],
    &["serve", "8080", "k", "0"],
    &["serve", "8080", "k", "1000001"],
    &["serve", "8080", "k"],
];

/// The run of words that ask for nothing.
fn usage(words: &'static [&'static str]) -> Row {
    Row {
        words,
        says: &[],
        keeper: &[],
        door: &[],
        writes: &[],
        status: 1,
        wanted: b"usage: desk --help\n",
    }
}

fn door(alloc: Global, row: &Row) -> Option<MemoryDoor> {
    let mut said = Vec::new(alloc);
    for text in row.says {
        let bytes = Bytes::from_slice(alloc, text.as_bytes()).ok()?;
        said.push(bytes).ok()?;
    }
    Some(MemoryDoor::new(alloc, said, row.door.to_vec(alloc).ok()?))
}

/// The number of the status of a row's run.
fn status(alloc: Global, row: &Row, door: &mut MemoryDoor, sink: &mut MemorySink) -> Option<u8> {
    let reads = row.keeper.to_vec(alloc).ok()?;
    let mut source = MemorySource::new(alloc, Bytes::new(alloc), Vec::new(alloc));
    let mut keeper = MemoryKeeper::new(alloc, Vec::new(alloc), reads);
    let status = run(alloc, row.words, &mut source, sink, &mut keeper, door);
    drop(source);
    drop(keeper);
    status
}

/// Whether a row's run ends and prints as it says.
fn is_run(alloc: Global, row: &Row) -> bool {
    let Ok(writes) = row.writes.to_vec(alloc) else {
        return false;
    };
    let Some(mut door) = door(alloc, row) else {
        return false;
    };
    let mut sink = MemorySink::new(alloc, writes);
    status(alloc, row, &mut door, &mut sink) == Some(row.status) && sink.as_slice() == row.wanted
}

#[test]
fn conversations_are_served(rt: HostRuntime) {
    for (number, row) in ROWS.iter().enumerate() {
        assert!(rt; is_run(rt.alloc(), row), "row {number}");
    }
}

#[test]
fn other_words_are_no_command(rt: HostRuntime) {
    for (number, words) in NO_COMMANDS.into_iter().enumerate() {
        assert!(rt; is_run(rt.alloc(), &usage(words)), "words {number}");
    }
}

/// Whether the peer of the first row gets what it should.
fn is_answered(alloc: Global) -> Option<bool> {
    let row = &ROWS[0];
    let mut door = door(alloc, row)?;
    let mut sink = MemorySink::new(alloc, Vec::new(alloc));
    status(alloc, row, &mut door, &mut sink)?;
    let written = door.written().first()?.as_slice();
    Some(written == NO_SITES)
}

#[test]
fn a_peer_gets_its_answer(rt: HostRuntime) {
    assert!(rt; is_answered(rt.alloc()) == Some(true));
}
