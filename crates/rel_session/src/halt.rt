ghost use Rattle.std.specs.Prelude.{◌≡◌, [], IsErrOf, MatchResult};
ghost use Rattle.std.specs.Io.KnownBytes.{Appends};
ghost use Rattle.desk_base.specs.Counts.{CountsFaults};
ghost use Rattle.desk_base.specs.Flow.{AppendsSome, IsFront};
ghost use Rattle.rel_session.specs.declared.halt.Halt.TheVariants.{Memory};

use desk_base::{Bytes, Put, Sink};
use std::alloc::{AllocError, Global};

/// Why a run ended early.
#[derive(Clone, Copy)]
pub enum Halt {
    /// A write failed.
    Sink,
    /// The clock gave no moment.
    Clock,
    /// Memory ran out.
    Memory,
}

impl From<AllocError> for Halt {
    ghost from_gives = { λ _ e. e ≡ Memory };

    fn from(_: AllocError) -> Halt {
        Halt::Memory
    }
}

/// Writes a piece.
pub fn put<W: Sink>(sink: &mut W, piece: &[u8]) -> Result<(), Halt>
    ensures written { MatchResult result
        (λ _. Appends (W.told sink.old).held (W.told sink.new).held piece.now)
        (λ _. AppendsSome (W.told sink.old).held (W.told sink.new).held (IsFront piece.now)) }
    ensures counts { CountsFaults (IsErrOf result Halt.Sink) (W.told sink.old).faults (W.told sink.new).faults }
    ensures never { ¬ IsErrOf result Halt.Clock }
{
    match sink.write(piece) {
        Put::Done => Ok(()),
        Put::Failed => Err(Halt::Sink),
    }
}

/// Writes what waits to be written.
pub(crate) fn flush<W: Sink>(alloc: Global, sink: &mut W, out: &mut Bytes) -> Result<(), Halt>
    ensures written { MatchResult result
        (λ _. Appends (W.told sink.old).held (W.told sink.new).held out.old)
        (λ _. AppendsSome (W.told sink.old).held (W.told sink.new).held (IsFront out.old)) }
    ensures empty { MatchResult result (λ _. out.new ≡ []) (λ _. Unit {0}) }
    ensures counts { CountsFaults (IsErrOf result Halt.Sink) (W.told sink.old).faults (W.told sink.new).faults }
    ensures never { ¬ IsErrOf result Halt.Clock }
{
    put(sink, out.as_slice())?;
    *out = Bytes::new(alloc);
    Ok(())
}
