use desk_base::{Bytes, Put};
use desk_door::{Door, DoorGot, MemoryDoor};
use std::alloc::Global;
use std::mem::drop;
use std::test::Fail;

/// A call of a door. Those that are numbered have their numbers beside them below.
#[derive(Clone, Copy)]
enum Call {
    Open,
    Next,
    /// Into a room of three bytes.
    Read,
    Write(&'static str),
    Close(bool),
}

/// What the peers say.
const SAID: [&str; 3] = ["abcde", "f", ""];

/// The numbers of the calls that are to fail.
const FAILS: [u32; 3] = [6, 10, 14];

/// Calls in order, and what each answers: what was read, or a word.
const ROWS: [(Call, &str); 20] = [
    (Call::Open, "done"), // 1
    (Call::Read, "end"), // 2
    (Call::Write("lost"), "failed"), // 3
    (Call::Next, "done"), // 4
    (Call::Read, "abc"), // 5
    (Call::Read, "failed"), // 6
    (Call::Read, "de"), // 7
    (Call::Read, "end"), // 8
    (Call::Write("one"), "done"), // 9
    (Call::Close(true), "closed"),
    (Call::Write("lost"), "failed"), // 10
    (Call::Write(" two"), "done"), // 11
    (Call::Next, "done"), // 12
    (Call::Read, "f"), // 13
    (Call::Next, "failed"), // 14
    (Call::Next, "done"), // 15
    (Call::Read, "end"), // 16
    (Call::Write("three"), "done"), // 17
    (Call::Next, "failed"), // 18
    (Call::Write("!"), "done"), // 19
];

/// What was written in each conversation afterwards.
const WRITTEN: [&str; 3] = ["one two", "", "three!"];

fn word(put: Put) -> &'static str {
    match put {
        Put::Done => "done",
        Put::Failed => "failed",
    }
}

/// Whether a read answers so.
fn reads<D: Door>(door: &mut D, answer: &str) -> bool {
    let mut room = [0u8; 3];
    match door.read(&mut room) {
        DoorGot::Some(count) => &room[..count] == answer.as_bytes(),
        DoorGot::End => answer == "end",
        DoorGot::Failed => answer == "failed",
    }
}

/// Whether a call answers so.
fn answers<D: Door>(door: &mut D, call: Call, answer: &str) -> bool {
    match call {
        Call::Open => word(door.open(8080)) == answer,
        Call::Next => word(door.next()) == answer,
        Call::Read => reads(door, answer),
        Call::Write(piece) => word(door.write(piece.as_bytes())) == answer,
        Call::Close(whole) => {
            door.close(whole);
            answer == "closed"
        }
    }
}

fn door(alloc: Global) -> Result<MemoryDoor, Fail> {
    let mut conversations = Vec::new(alloc);
    for said in SAID {
        conversations.push(Bytes::from_slice(alloc, said.as_bytes())?)?;
    }
    Ok(MemoryDoor::new(alloc, conversations, FAILS.to_vec(alloc)?))
}

/// Whether a door tells what a close was told, also in the next conversation.
fn keeps_end(door: &mut MemoryDoor, whole: bool) -> bool {
    door.close(whole);
    let is_kept = door.ended() == Some(whole);
    door.next();
    is_kept && door.ended() == Some(whole)
}

/// Whether a door tells so of one close after another, and nothing before the first.
fn keeps_ends(door: &mut MemoryDoor) -> bool {
    let mut are_kept = door.ended() == None;
    for whole in [false, true, true, false] {
        are_kept = keeps_end(door, whole) && are_kept;
    }
    are_kept
}

#[test]
fn a_door_keeps_what_the_last_close_was_told(rt: HostRuntime) -> Result<(), Fail> {
    let mut door = door(rt.alloc())?;
    let are_kept = keeps_ends(&mut door);
    drop(door);
    assert!(rt; are_kept);
    Ok(())
}

/// How many calls before the first that isn't answered so.
fn first_unanswered(door: &mut MemoryDoor) -> Option<usize> {
    for (before, (call, answer)) in ROWS.iter().enumerate() {
        if !answers(door, *call, answer) {
            return Some(before);
        }
    }
    None
}

/// Whether these were written in the conversations of a door.
fn is_written(door: &MemoryDoor, wanted: &[&str]) -> bool {
    let written = door.written();
    if written.len() != wanted.len() {
        return false;
    }
    for (text, bytes) in written.iter().zip(wanted) {
        if text.as_slice() != bytes.as_bytes() {
            return false;
        }
    }
    true
}

#[test]
fn calls_are_answered_in_order(rt: HostRuntime) -> Result<(), Fail> {
    let mut door = door(rt.alloc())?;
    let unanswered = first_unanswered(&mut door);
    let is_written = is_written(&door, &WRITTEN);
    drop(door);
    assert_eq!(rt; unanswered, None);
    assert!(rt; is_written);
    Ok(())
}
