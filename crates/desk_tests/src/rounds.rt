//! How `relay` and `agent` end and what they write, over a door, a link, a pocket and a clock in memory.
use crate::round_rows::{NEVER, NO_COMMANDS, ROWS, Row};
use crate::runs::run_over;
use agent_text::{MemoryPocket, Pocket, SaveResult};
use desk_base::{Bytes, MemorySink, MemorySource, StepClock};
use desk_door::{MemoryDoor, MemoryLink};
use desk_keep::MemoryKeeper;
use std::alloc::{AllocError, Global};
use std::mem::drop;

/// The run of words that ask for nothing.
fn usage(words: &'static [&'static str]) -> Row {
    Row {
        words,
        says: &[],
        replies: &[],
        saved: "",
        fails: NEVER,
        status: 1,
        wanted: b"usage: desk --help\n",
    }
}

fn texts(alloc: Global, texts: &[&str]) -> Result<Vec<Bytes>, AllocError> {
    let mut list = Vec::new(alloc);
    for text in texts {
        list.push(Bytes::from_slice(alloc, text.as_bytes())?)?;
    }
    Ok(list)
}

fn door(alloc: Global, row: &Row) -> Option<MemoryDoor> {
    let fails = row.fails.door.to_vec(alloc).ok()?;
    Some(MemoryDoor::new(alloc, texts(alloc, row.says).ok()?, fails))
}

fn link(alloc: Global, row: &Row) -> Option<MemoryLink> {
    let replies = texts(alloc, row.replies).ok()?;
    let fails = row.fails.exchanges.to_vec(alloc).ok()?;
    Some(MemoryLink::new(alloc, replies, fails))
}

/// A pocket in which a row's text is saved.
fn pocket(alloc: Global, row: &Row) -> Option<MemoryPocket> {
    let fails = row.fails.loads.to_vec(alloc).ok()?;
    let mut pocket = MemoryPocket::new(alloc, fails, Vec::new(alloc));
    if row.saved.is_empty() {
        return Some(pocket);
    }
    match pocket.save(row.saved.as_bytes()) {
        SaveResult::Done => Some(pocket),
        _ => None,
    }
}

/// The number of the status of a row's run.
fn status(alloc: Global, row: &Row, sink: &mut MemorySink) -> Option<u8> {
    let mut pocket = pocket(alloc, row)?;
    let mut door = door(alloc, row)?;
    let mut link = link(alloc, row)?;
    let mut clock = StepClock::new(alloc, [1000, 2000].to_vec(alloc).ok()?, Vec::new(alloc));
    let mut source = MemorySource::new(alloc, Bytes::new(alloc), Vec::new(alloc));
    let mut keeper = MemoryKeeper::new(alloc, Vec::new(alloc), Vec::new(alloc));
    let status = run_over(
        alloc,
        row.words,
        &mut source,
        sink,
        &mut pocket,
        &mut keeper,
        &mut door,
        &mut link,
        &mut clock,
    );
    drop(pocket);
    drop(door);
    drop(link);
    drop(clock);
    drop(source);
    drop(keeper);
    status
}

/// Whether a row's run ends and prints as it says.
fn is_run(alloc: Global, row: &Row) -> bool {
    let Ok(writes) = row.fails.writes.to_vec(alloc) else {
        return false;
    };
    let mut sink = MemorySink::new(alloc, writes);
    status(alloc, row, &mut sink) == Some(row.status) && sink.as_slice() == row.wanted
}

#[test]
fn relays_and_agents_run(rt: HostRuntime) {
    for (number, row) in ROWS.iter().enumerate() {
        assert!(rt; is_run(rt.alloc(), row), "row {number}");
    }
}

#[test]
fn other_words_are_no_command(rt: HostRuntime) {
    for (number, words) in NO_COMMANDS.into_iter().enumerate() {
        assert!(rt; is_run(rt.alloc(), &usage(words)), "words {number}");
    }
}
