ghost use Rattle.std.specs.Prelude.{◌≡◌, []};
ghost use Rattle.desk_base.specs.CallStates.{no_calls};
ghost use Rattle.desk_base.specs.Flow.{Writes};
ghost use Rattle.desk_base.specs.MemoryStates.{WritesMemory, sink_view};

use crate::{Bytes, Calls, Put, Sink};
use std::alloc::Global;
use std::marker::Model;

/// A sink in memory. A write that fails appends nothing. One for which no memory is left is a fault of the sink.
#[derive(Drop)]
pub struct MemorySink {
    bytes: Bytes,
    writes: Calls,
}

impl Model for MemorySink {
    ghost use Rattle.desk_base.specs.MemoryStates.{SinkState};

    ghost Value = { SinkState };

    ghost view = { λ s. record { held = s.bytes; calls = s.writes } };
}

impl MemorySink {
    /// An empty sink. The writes with these numbers fail, counted from 1.
    pub fn new(alloc: Global, fails: Vec<u32>) -> MemorySink
        ensures { result ≡ record { held = []; calls = no_calls fails.items } }
    {
        MemorySink {
            bytes: Bytes::new(alloc),
            writes: Calls::new(alloc, fails),
        }
    }

    /// What it holds.
    pub fn as_slice(&self) -> &[u8]
        ensures { result.now ≡ self.now.held }
    {
        self.bytes.as_slice()
    }
}

impl Sink for MemorySink {
    ghost told = { sink_view };

    fn write(&mut self, piece: &[u8]) -> Put
        ensures writes { Writes piece.now (sink_view self.old) result (sink_view self.new) }
        ensures memory { WritesMemory self.old self.new result }
    {
        if self.writes.begin() {
            self.writes.fault();
            return Put::Failed;
        }
        match self.bytes.extend(piece) {
            Ok(()) => Put::Done,
            Err(_) => {
                self.writes.fault();
                Put::Failed
            }
        }
    }
}
