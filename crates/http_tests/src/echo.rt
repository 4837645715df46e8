// A host, and conversations with it.
use desk_base::{Bytes, Put};
use desk_http::{Asking, Called, Door, DoorGot, MemoryDoor, Met, Paths, Routes, Site2, converse};
use std::alloc::{AllocError, Global};
use std::mem::drop;

/// Answers 200 with the method, the path and the body, or that memory ran out, and counts the calls.
#[derive(Drop)]
struct Echo {
    alloc: Global,
    has_memory: bool,
    calls: u32,
}

impl Site2 for Echo {
    ghost use Rattle.std.specs.Prelude.{⊤, ℕ, []};

    ghost Told = { ℕ };

    ghost told = { λ h. h.calls };

    ghost holds = { λ _. [] };

    ghost calls = { λ _ _ _ _ _ _. ⊤ };

    fn call(&mut self, asking: Asking, path: &[u8], body: &[u8]) -> Called {
        self.calls = self.calls.saturating_add(1);
        if !self.has_memory {
            return Called::Memory;
        }
        match said(self.alloc, asking, path, body) {
            Ok(text) => Called::Answer(200, text),
            Err(_) => Called::Memory,
        }
    }
}

fn said(alloc: Global, asking: Asking, path: &[u8], body: &[u8]) -> Result<Bytes, AllocError> {
    let mut text = Bytes::from_slice(alloc, asking.word().as_bytes())?;
    text.push(b' ')?;
    text.extend(path)?;
    text.push(b' ')?;
    text.extend(body)?;
    Ok(text)
}

/// What came of a conversation.
#[derive(Clone, Copy)]
pub struct Heard {
    /// How it ended, in a word.
    pub met: &'static str,
    /// How often the host was called until then.
    pub calls: u32,
    /// How many bytes were written behind those that were to come first. None where others came first.
    pub behind: Option<usize>,
    /// What the door was told at the end: whether the request was read to its end.
    pub whole: Option<bool>,
    /// How many bytes of what the peer says weren't taken.
    pub left: usize,
}

/// One conversation, in which these bytes are to be written first. Calls of the door of these numbers fail; its beginning is the first.
pub fn talk(
    alloc: Global,
    routes: Routes,
    said: &[u8],
    fails: &[u32],
    first: &str,
) -> Result<Heard, AllocError> {
    let mut host = host(alloc, true);
    hold(&mut host, routes, &[said], fails, first)
}

/// The same twice at one door: what came of the second.
pub fn talk_twice(
    alloc: Global,
    said: &[u8],
    fails: &[u32],
    first: &str,
) -> Result<Heard, AllocError> {
    let mut host = host(alloc, true);
    hold(&mut host, Routes::Server, &[said, said], fails, first)
}

/// The same once with a host that has no memory.
pub fn talk_poorly(
    alloc: Global,
    said: &[u8],
    fails: &[u32],
    first: &str,
) -> Result<Heard, AllocError> {
    let mut host = host(alloc, false);
    hold(&mut host, Routes::Server, &[said], fails, first)
}

fn host(alloc: Global, has_memory: bool) -> Echo {
    Echo {
        alloc,
        has_memory,
        calls: 0,
    }
}

/// Conversations of a host with peers that say these, one after another: what came of the last.
fn hold(
    host: &mut Echo,
    routes: Routes,
    said: &[&[u8]],
    fails: &[u32],
    first: &str,
) -> Result<Heard, AllocError> {
    let mut door = door_of(host.alloc, said, fails)?;
    let paths = Paths::new(host.alloc);
    for _ in 1..said.len() {
        meet(&mut door, host, &paths, routes, first);
    }
    let heard = meet(&mut door, host, &paths, routes, first);
    drop(paths);
    drop(door);
    Ok(heard)
}

fn door_of(alloc: Global, said: &[&[u8]], fails: &[u32]) -> Result<MemoryDoor, AllocError> {
    let mut conversations = Vec::new(alloc);
    for bytes in said {
        conversations.push(Bytes::from_slice(alloc, bytes)?)?;
    }
    Ok(MemoryDoor::new(alloc, conversations, fails.to_vec(alloc)?))
}

/// The next conversation of a host at a door.
fn meet(
    door: &mut MemoryDoor,
    host: &mut Echo,
    paths: &Paths,
    routes: Routes,
    first: &str,
) -> Heard {
    let met = match door.next() {
        Put::Done => word(converse(host.alloc, door, host, paths, routes)),
        Put::Failed => "no conversation",
    };
    Heard {
        met,
        calls: host.calls,
        behind: count_behind(door.written(), first),
        whole: door.ended(),
        left: count_left(door),
    }
}

/// How many bytes of the last stand behind these.
fn count_behind(written: &[Bytes], first: &str) -> Option<usize> {
    let last = written.last()?;
    let behind = last.as_slice().strip_prefix(first.as_bytes())?;
    Some(behind.len())
}

/// How many bytes are left of the present conversation, which are taken by that.
fn count_left(door: &mut MemoryDoor) -> usize {
    let mut room = [0u8; 4096];
    let mut left: usize = 0;
    for _ in 0..10_000 {
        match door.read(&mut room) {
            DoorGot::Some(count) => left = left.saturating_add(count),
            DoorGot::End | DoorGot::Failed => return left,
        }
    }
    left
}

fn word(met: Met) -> &'static str {
    match met {
        Met::Answered(200) => "200",
        Met::Answered(400) => "400",
        Met::Answered(404) => "404",
        Met::Answered(413) => "413",
        Met::Answered(_) => "another status",
        Met::Closed => "closed",
        Met::DoorFault => "door fault",
        Met::Memory => "memory",
    }
}
