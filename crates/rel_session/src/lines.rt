ghost use Rattle.std.specs.Prelude.{IsErrOf, MatchResult};
ghost use Rattle.rel_session.specs.Devices.{DidAll, DidFront, IsAsking, OnlyAsks, devices};
ghost use Rattle.rel_session.specs.Lines.{lines_of};
ghost use Rattle.rel_session.specs.Sessions.{fresh};

use crate::session::Session;
use crate::split::first_line;
use crate::{Asking, Halt, Reader};
use bf_machine::Machine;
use desk_base::{Clock, Sink};
use std::alloc::Global;

/// Answers each line of the input: a question, as R reads it, or a command that begins with `:`. What is said of a line is written when it is
/// complete, or in pieces of some tens of kilobytes.
pub fn answer_lines<R: Reader, W: Sink, M: Machine, C: Clock>(
    alloc: Global,
    input: &[u8],
    asking: Asking,
    sink: &mut W,
    machine: &mut M,
    clock: &mut C,
) -> Result<(), Halt>
    requires asking { IsAsking asking }
    ensures ran { let old = devices (W.told sink.old) (M.told machine.old) (C.told clock.old) in
        let new = devices (W.told sink.new) (M.told machine.new) (C.told clock.new) in
        MatchResult result (λ _. DidAll R.reads asking.offset fresh (lines_of input.now) asking.moment old new)
        (λ _. DidFront R.reads asking.offset fresh (lines_of input.now) asking.moment old new) }
    ensures only { OnlyAsks (IsErrOf result Halt.Sink) (IsErrOf result Halt.Clock)
        (devices (W.told sink.old) (M.told machine.old) (C.told clock.old))
        (devices (W.told sink.new) (M.told machine.new) (C.told clock.new)) }
{
    let mut session = Session::new(alloc);
    let mut rest = input;
    while !rest.is_empty() {
        let (line, after) = first_line(rest);
        session.run_line::<R, W, M, C>(alloc, line, asking, sink, machine, clock)?;
        rest = after;
    }
    Ok(())
}
