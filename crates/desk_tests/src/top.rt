//! What no command of the program can show: a run whose source, sink or clock fails, and the words of the help and of no command.
use crate::runs::run;
use desk_base::{Bytes, MemorySink, MemorySource};
use desk_door::MemoryDoor;
use desk_keep::MemoryKeeper;
use std::alloc::Global;
use std::mem::drop;

/// A run, the number of the status with which it ends, and what it writes. Reads and writes that fail are counted from 1.
struct Row {
    words: &'static [&'static str],
    input: &'static [u8],
    reads: &'static [u32],
    writes: &'static [u32],
    status: u8,
    wanted: &'static [u8],
}

/// Worked out by hand from the table of statuses.
const ROWS: [Row; 10] = [
    Row {
        words: &["qna", "--world"],
        input: b"world\nname pc1\nsystem 12.4 Debian\noffset 0\nmoment 0\nend\n1 + 1\n",
        reads: &[],
        writes: &[],
        status: 0,
        wanted: b"Q: 1 + 1\nA: 2\n",
    },
    Row {
        words: &["--help"],
        input: b"1\n",
        reads: &[1],
        writes: &[],
        status: 0,
        wanted: b"desk qna\ndesk qna --world\ndesk check\ndesk office\ndesk make N\ndesk serve PORT KEEP N\ndesk relay PORT UPSTREAM N\ndesk agent UPSTREAM POCKET WORK NAME OFFSET N\ndesk session KEEP\ndesk relay PORT UPSTREAM N CACHE\ndesk agent UPSTREAM POCKET WORK NAME OFFSET N SECOND\ndesk --help\n",
    },
    Row {
        words: &["qna", "qna"],
        input: b"1\n",
        reads: &[1],
        writes: &[],
        status: 1,
        wanted: b"usage: desk --help\n",
    },
    Row {
        words: &["qna"],
        input: b"1\n",
        reads: &[2],
        writes: &[],
        status: 3,
        wanted: b"",
    },
    Row {
        words: &["qna", "--world"],
        input: b"world\nname pc1\nsystem 12.4 Debian\noffset 0\nmoment 0\nend\n1 + 1\n2 + 2\n",
        reads: &[],
        writes: &[2],
        status: 4,
        wanted: b"Q: 1 + 1\nA: 2\n",
    },
    Row {
        words: &["qna", "--world"],
        input: b"",
        reads: &[],
        writes: &[1],
        status: 4,
        wanted: b"",
    },
    Row {
        words: &["check"],
        input: b"sit desk 1\n",
        reads: &[],
        writes: &[1],
        status: 4,
        wanted: b"",
    },
    Row {
        words: &["qna"],
        input: b":more\n1\n",
        reads: &[],
        writes: &[],
        status: 5,
        wanted: b"Q: :more\nE: Nothing is paused.\n",
    },
    Row {
        words: &["office"],
        input: b"office\nend\n",
        reads: &[],
        writes: &[],
        status: 0,
        wanted: b"computers 0\nreports 0\nsum fixed 0 failed 0 running 0 interrupted 0\n",
    },
    Row {
        words: &["office"],
        input: b"office\nrelay r1\nforget r1\nforget r1\nend\n",
        reads: &[],
        writes: &[3],
        status: 4,
        wanted: b"forget r1\n",
    },
];

fn source(alloc: Global, row: &Row) -> Option<MemorySource> {
    let reads = row.reads.to_vec(alloc).ok()?;
    let bytes = Bytes::from_slice(alloc, row.input).ok()?;
    Some(MemorySource::new(alloc, bytes, reads))
}

/// The number of the status of a row's run, to which nobody comes.
fn status(alloc: Global, row: &Row, sink: &mut MemorySink) -> Option<u8> {
    let mut source = source(alloc, row)?;
    let mut keeper = MemoryKeeper::new(alloc, Vec::new(alloc), Vec::new(alloc));
    let mut door = MemoryDoor::new(alloc, Vec::new(alloc), Vec::new(alloc));
    let status = run(alloc, row.words, &mut source, sink, &mut keeper, &mut door);
    drop(source);
    drop(keeper);
    drop(door);
    status
}

/// Whether a row's run ends and writes as it says.
fn is_run(alloc: Global, row: &Row) -> bool {
    match row.writes.to_vec(alloc) {
        Ok(writes) => {
            let mut sink = MemorySink::new(alloc, writes);
            status(alloc, row, &mut sink) == Some(row.status) && sink.as_slice() == row.wanted
        }
        Err(_) => false,
    }
}

#[test]
fn runs_end_with_their_status(rt: HostRuntime) {
    for (number, row) in ROWS.iter().enumerate() {
        assert!(rt; is_run(rt.alloc(), row), "row {number}");
    }
}
