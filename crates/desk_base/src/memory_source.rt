ghost use Rattle.std.specs.Prelude.{◌≡◌, ◌<◌, length, Some};
ghost use Rattle.desk_base.specs.CallStates.{no_calls};
ghost use Rattle.desk_base.specs.Flow.{Gives};
ghost use Rattle.desk_base.specs.MemoryStates.{ReadsMemory, source_view};

use crate::{Bytes, Calls, Got, Source};
use std::alloc::Global;
use std::marker::Model;

/// A source in memory. A read takes as much as there is room for.
#[derive(Drop)]
pub struct MemorySource {
    bytes: Bytes,
    at: usize,
    reads: Calls,
}

impl Model for MemorySource {
    ghost use Rattle.std.specs.Prelude.{◌≤◌, length, drop};
    ghost use Rattle.desk_base.specs.MemoryStates.{SourceState};

    ghost Value = { SourceState };

    ghost view = { λ s. record { left = drop s.at s.bytes; calls = s.reads } };

    ghost invariant = { λ s. s.at ≤ length s.bytes };
}

impl MemorySource {
    /// A source of these bytes. The reads with these numbers fail, counted from 1.
    pub fn new(alloc: Global, left: Bytes, fails: Vec<u32>) -> MemorySource
        ensures { result ≡ record { left = left; calls = no_calls fails.items } }
    {
        MemorySource {
            bytes: left,
            at: 0,
            reads: Calls::new(alloc, fails),
        }
    }
}

impl Source for MemorySource {
    ghost told = { source_view };

    fn read(&mut self, room: &mut [u8]) -> Got
        requires { 0 < length room.old }
        ensures gives { Gives (Some self.old.left) (Some self.new.left) result room.new }
        ensures memory { ReadsMemory self.old self.new result (length room.new) }
    {
        if self.reads.begin() {
            self.reads.fault();
            return Got::Failed;
        }
        let left = &self.bytes.as_slice()[self.at..];
        let count = left.len().min(room.len());
        if count == 0 {
            return Got::End;
        }
        room[..count].copy_from_slice(&left[..count]);
        self.at += count;
        Got::Some(count)
    }
}
