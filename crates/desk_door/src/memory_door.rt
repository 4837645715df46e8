ghost use Rattle.std.specs.Prelude.{◌≡◌, ◌<◌, length, reverse, Some};
ghost use Rattle.desk_base.specs.Flow.{Gives};
ghost use Rattle.desk_door.specs.Doors.{OpensAt, BeginsNext, WritesOut};
ghost use Rattle.desk_door.specs.Memory.{PutsMemory, TakesMemory, WritesMemory, ExtendsFirst, closed_door, door_view};

use crate::{Door, DoorGot};
use desk_base::{Bytes, Calls, Put};
use std::alloc::Global;
use std::collections::VecDeque;
use std::marker::Model;

/// A door in memory, with what the peers say. A call that fails changes nothing. One for which no memory is left is a fault of the door,
/// and so are a conversation to begin where none is left, and a write before the first.
#[derive(Drop)]
pub struct MemoryDoor {
    alloc: Global,
    ports: Vec<u16>,
    coming: VecDeque<Bytes>,
    /// What the peer says in the present conversation, and how much of it was read.
    said: Bytes,
    at: usize,
    /// What was written in each conversation, the present one last.
    written: Vec<Bytes>,
    /// What the last close was told.
    ended: Option<bool>,
    calls: Calls,
}

impl Model for MemoryDoor {
    ghost use Rattle.std.specs.Prelude.{◌≤◌, length, drop, reverse};
    ghost use Rattle.desk_door.specs.Memory.{DoorState};

    ghost Value = { DoorState };

    ghost view = { λ d. record {
      ports = d.ports.items;
      coming = d.coming.items;
      left = drop d.at d.said;
      written = reverse d.written.items;
      ended = d.ended;
      calls = d.calls;
    } };

    ghost invariant = { λ d. d.at ≤ length d.said };
}

impl MemoryDoor {
    /// A door with these conversations to come. The calls with these numbers fail, counted from 1: openings, beginnings, reads and writes
    /// together.
    pub fn new(alloc: Global, conversations: Vec<Bytes>, fails: Vec<u32>) -> MemoryDoor
        ensures { result ≡ closed_door conversations.items fails.items }
    {
        MemoryDoor {
            alloc,
            ports: Vec::new(alloc),
            coming: VecDeque::from_vec(conversations),
            said: Bytes::new(alloc),
            at: 0,
            written: Vec::new(alloc),
            ended: None,
            calls: Calls::new(alloc, fails),
        }
    }

    /// What was written in each conversation that has begun, the present one last.
    pub fn written(&self) -> &[Bytes]
        ensures { reverse result.now ≡ self.now.written }
    {
        self.written.as_slice()
    }

    /// What the last close was told: whether a request was read to its end.
    pub fn ended(&self) -> Option<bool>
        ensures { result ≡ self.now.ended }
    {
        self.ended
    }
}

impl Door for MemoryDoor {
    ghost told = { door_view };

    fn open(&mut self, port: u16) -> Put
        ensures opens { OpensAt port (door_view self.old) result (door_view self.new) }
        ensures memory { PutsMemory self.old result self.new }
    {
        if self.calls.begin() || self.ports.push(port).is_err() {
            self.calls.fault();
            return Put::Failed;
        }
        Put::Done
    }

    fn next(&mut self) -> Put
        ensures begins { BeginsNext (door_view self.old) result (door_view self.new) }
        ensures memory { PutsMemory self.old result self.new }
    {
        if self.calls.begin() || self.written.reserve(1).is_err() {
            self.calls.fault();
            return Put::Failed;
        }
        let Some(said) = self.coming.pop_front() else {
            self.calls.fault();
            return Put::Failed;
        };
        self.said = said;
        self.at = 0;
        self.written.push(Bytes::new(self.alloc)).unwrap();
        Put::Done
    }

    fn read(&mut self, room: &mut [u8]) -> DoorGot
        requires { 0 < length room.old }
        ensures gives { Gives (Some self.old.left) (Some self.new.left) result room.new }
        ensures memory { TakesMemory self.old result (length room.new) self.new }
        ensures rest { self.new ≡ record self.old { left = self.new.left; calls = self.new.calls } }
    {
        if self.calls.begin() {
            self.calls.fault();
            return DoorGot::Failed;
        }
        let left = &self.said.as_slice()[self.at..];
        let count = left.len().min(room.len());
        if count == 0 {
            return DoorGot::End;
        }
        room[..count].copy_from_slice(&left[..count]);
        self.at += count;
        DoorGot::Some(count)
    }

    #[tactic(auto, using(crate::proofs::Doors::nothing_added))]
    fn write(&mut self, piece: &[u8]) -> Put
        ensures writes { WritesOut piece.now (door_view self.old) result (door_view self.new) }
        ensures memory { WritesMemory piece.now self.old result self.new }
    {
        if self.calls.begin() {
            self.calls.fault();
            return Put::Failed;
        }
        if !extend_last(&mut self.written, piece) {
            self.calls.fault();
            return Put::Failed;
        }
        Put::Done
    }

    fn close(&mut self, whole: bool)
        ensures { self.new ≡ record self.old { ended = Some whole } }
    {
        self.ended = Some(whole);
    }
}

/// Appends a piece to the last of some texts, and answers whether that was done: there may be none, and memory may run out.
fn extend_last(texts: &mut Vec<Bytes>, piece: &[u8]) -> bool
    ensures { ExtendsFirst piece.now (reverse texts.old.items) result (reverse texts.new.items) }
{
    match texts.last_mut() {
        Some(last) => last.extend(piece).is_ok(),
        None => false,
    }
}
