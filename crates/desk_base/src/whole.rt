ghost use Rattle.std.specs.Prelude.{◌≡◌, ◌+◌, IfOk};
ghost use Rattle.desk_base.specs.Counts.{CountsAtMost, CountsFaults};
ghost use Rattle.desk_base.specs.Whole.{ReadsAll, StopsAtEnd};

use crate::{Bytes, Got, Source};
use std::alloc::{AllocError, Global};

/// What reading a source to its end answers.
#[derive(Drop)]
pub enum Whole {
    /// These are all its bytes, at most the limit.
    Read(Bytes),
    /// It gave more than the limit before its end.
    TooLong,
    /// A read failed.
    Failed,
    /// Memory ran out.
    Memory,
}

impl Whole {
    /// The same answer once more. The error is want of memory.
    pub fn copy(&self) -> Result<Whole, AllocError>
        ensures { IfOk result (λ whole. whole ≡ self.now) }
    {
        Ok(match self {
            Whole::Read(bytes) => Whole::Read(bytes.copy()?),
            Whole::TooLong => Whole::TooLong,
            Whole::Failed => Whole::Failed,
            Whole::Memory => Whole::Memory,
        })
    }
}

/// Reads a source to its end, unless it gives more bytes than the limit. What was taken stays taken.
pub fn read_all<S: Source>(alloc: Global, source: &mut S, limit: usize) -> Whole
    ensures whole { ReadsAll (S.told source.old).left (S.told source.new).left limit result }
    ensures reads { CountsAtMost (S.told source.old).reads (S.told source.new).reads (limit + 1) }
    ensures stops { StopsAtEnd (S.told source.old).reads (S.told source.new).reads result }
    ensures counts { CountsFaults (result ≡ Whole.Failed) (S.told source.old).faults (S.told source.new).faults }
{
    let mut bytes = Bytes::new(alloc);
    let mut room = [0u8; 4096];
    loop {
        let count = match source.read(&mut room) {
            Got::Some(count) => count,
            Got::End => return Whole::Read(bytes),
            Got::Failed => return Whole::Failed,
        };
        if count > limit - bytes.as_slice().len() {
            return Whole::TooLong;
        }
        if bytes.extend(&room[..count]).is_err() {
            return Whole::Memory;
        }
    }
}
