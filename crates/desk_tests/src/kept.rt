//! How `session` ends and what it writes, over a keeper in memory that keeps two computers.
use crate::runs::run_over;
use agent_text::MemoryPocket;
use desk_base::{Bytes, MemorySink, MemorySource, StepClock};
use desk_door::{MemoryDoor, MemoryLink};
use desk_keep::{Applied, Change, Changes, Keeper, MemoryKeeper};
use rel_lexer::Text;
use std::alloc::{AllocError, Global};
use std::mem::drop;

/// A run, whether its clock gives moments, the number of the status with which it ends, and what it writes. The source's reads, the keeper's
/// reading calls and the sink's writes that fail are counted from 1. The keeper's first reading call opens it.
#[derive(Clone, Copy)]
struct Row {
    words: &'static [&'static str],
    input: &'static [u8],
    timed: bool,
    reads: &'static [u32],
    keeper: &'static [u32],
    writes: &'static [u32],
    status: u8,
    wanted: &'static [u8],
}

/// Questions over the tables, and a command.
const FOUND: Row = Row {
    words: &["session", "k"],
    input: b"names of bes computers\nresults\n:page 1\nnames of bes computers\n:more",
    timed: true,
    reads: &[],
    keeper: &[],
    writes: &[],
    status: 0,
    wanted: b"Q: names of bes computers\nA: pc1\nA: pc2\nQ: results\nE: The operator \"results\" is not defined. (0..7)\nQ: :page 1\nQ: names of bes computers\nA: pc1\nM: more\nQ: :more\nA: pc2\nM: more\n",
};

/// What is kept can't be opened.
const UNOPENED: Row = Row {
    words: &["session", "k"],
    input: b"names of bes computers\n",
    timed: true,
    reads: &[],
    keeper: &[1],
    writes: &[],
    status: 7,
    wanted: b"",
};

/// Worked out by hand from the tables of commands and statuses.
const ROWS: [Row; 6] = [
    FOUND,
    UNOPENED,
    // A later fault of the keeper is told as the machine's, and the next question is asked.
    Row {
        words: &["session", "k"],
        input: b"names of bes computers\nnames of bes computers\n",
        timed: true,
        reads: &[],
        keeper: &[2],
        writes: &[],
        status: 0,
        wanted: b"Q: names of bes computers\nE: The machine could not answer. (9..22)\nQ: names of bes computers\nA: pc1\nA: pc2\n",
    },
    // The source is read before the keeper is opened.
    Row {
        words: &["session", "k"],
        input: b"1\n",
        timed: true,
        reads: &[1],
        keeper: &[1],
        writes: &[],
        status: 3,
        wanted: b"",
    },
    Row {
        words: &["session", "k"],
        input: b"1\n",
        timed: true,
        reads: &[],
        keeper: &[],
        writes: &[1],
        status: 4,
        wanted: b"",
    },
    Row {
        words: &["session", "k"],
        input: b":more\n1\n",
        timed: false,
        reads: &[],
        keeper: &[],
        writes: &[],
        status: 5,
        wanted: b"Q: :more\nE: Nothing is paused.\n",
    },
];

/// Words that ask for nothing: an empty name, a word too few, a word too many.
const NO_COMMANDS: [&[&str]; 3] = [&["session", ""], &["session"], &["session", "k", "k"]];

/// The run of words that ask for nothing, for which nothing is read or opened.
fn usage(words: &'static [&'static str]) -> Row {
    Row {
        words,
        input: b"1\n",
        timed: false,
        reads: &[1],
        keeper: &[1],
        writes: &[],
        status: 1,
        wanted: b"usage: desk --help\n",
    }
}

fn computers(alloc: Global) -> Result<Changes, AllocError> {
    let mut rows = Changes::new(alloc);
    rows.push(Change::Computer(Text::from_str(alloc, "pc1")?))?;
    rows.push(Change::Computer(Text::from_str(alloc, "pc2")?))?;
    Ok(rows)
}

/// Puts the rows, and answers whether they were put.
fn put(keeper: &mut MemoryKeeper, rows: &[Change]) -> bool {
    if !rows.iter().all(|row| row.fits()) {
        return false;
    }
    match keeper.apply(rows) {
        Applied::Done => true,
        _ => false,
    }
}

/// A keeper of two computers. The reading calls with these numbers fail.
fn keeper(alloc: Global, fails: &[u32]) -> Option<MemoryKeeper> {
    let rows = computers(alloc).ok()?;
    let mut keeper = MemoryKeeper::new(alloc, Vec::new(alloc), fails.to_vec(alloc).ok()?);
    if !put(&mut keeper, rows.as_slice()) {
        return None;
    }
    Some(keeper)
}

fn source(alloc: Global, row: &Row) -> Option<MemorySource> {
    let reads = row.reads.to_vec(alloc).ok()?;
    let bytes = Bytes::from_slice(alloc, row.input).ok()?;
    Some(MemorySource::new(alloc, bytes, reads))
}

/// A clock that gives three moments, or none.
fn clock(alloc: Global, timed: bool) -> Option<StepClock> {
    if !timed {
        return Some(StepClock::new(alloc, Vec::new(alloc), Vec::new(alloc)));
    }
    let moments = [1000, 2000, 3000].to_vec(alloc).ok()?;
    Some(StepClock::new(alloc, moments, Vec::new(alloc)))
}

/// The number of the status of a row's run over a keeper.
fn status(
    alloc: Global,
    row: &Row,
    keeper: &mut MemoryKeeper,
    sink: &mut MemorySink,
) -> Option<u8> {
    let mut source = source(alloc, row)?;
    let mut clock = clock(alloc, row.timed)?;
    let mut pocket = MemoryPocket::new(alloc, Vec::new(alloc), Vec::new(alloc));
    let mut door = MemoryDoor::new(alloc, Vec::new(alloc), Vec::new(alloc));
    let mut link = MemoryLink::new(alloc, Vec::new(alloc), Vec::new(alloc));
    let status = run_over(
        alloc,
        row.words,
        &mut source,
        sink,
        &mut pocket,
        keeper,
        &mut door,
        &mut link,
        &mut clock,
    );
    drop(source);
    drop(clock);
    drop(pocket);
    drop(door);
    drop(link);
    status
}

/// Whether a row's run over a keeper ends and writes as it says.
fn is_run_over(alloc: Global, row: &Row, keeper: &mut MemoryKeeper) -> bool {
    let Ok(writes) = row.writes.to_vec(alloc) else {
        return false;
    };
    let mut sink = MemorySink::new(alloc, writes);
    status(alloc, row, keeper, &mut sink) == Some(row.status) && sink.as_slice() == row.wanted
}

fn is_run(alloc: Global, row: &Row) -> bool {
    match keeper(alloc, row.keeper) {
        Some(mut keeper) => is_run_over(alloc, row, &mut keeper),
        None => false,
    }
}

#[test]
fn tables_are_asked(rt: HostRuntime) {
    for (number, row) in ROWS.iter().enumerate() {
        assert!(rt; is_run(rt.alloc(), row), "row {number}");
    }
}

#[test]
fn other_words_are_no_command(rt: HostRuntime) {
    for (number, words) in NO_COMMANDS.into_iter().enumerate() {
        assert!(rt; is_run(rt.alloc(), &usage(words)), "words {number}");
    }
}

/// Whether nothing was made where what is kept couldn't be opened: the next run finds what was kept before.
fn is_found_again(alloc: Global) -> bool {
    match keeper(alloc, UNOPENED.keeper) {
        Some(mut keeper) => {
            is_run_over(alloc, &UNOPENED, &mut keeper) && is_run_over(alloc, &FOUND, &mut keeper)
        }
        None => false,
    }
}

#[test]
fn nothing_is_made(rt: HostRuntime) {
    assert!(rt; is_found_again(rt.alloc()));
}
