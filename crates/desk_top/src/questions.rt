// Questions to this machine, and to a described world.
ghost use Rattle.std.specs.Prelude.{◌≡◌, ◌++◌, None, IsErrOf, MatchResult, OnOk};
ghost use Rattle.std.specs.Io.KnownBytes.{Appends};
ghost use Rattle.desk_base.specs.Counts.{CountsFaults};
ghost use Rattle.desk_base.specs.Flow.{AppendsFront};
ghost use Rattle.desk_top.specs.Asked.{DescribedEnds, MachineEnds, RefusalEnds, TextEnds};
ghost use Rattle.desk_top.specs.WorldInputs.{bad_line};
ghost use Rattle.rel_session.specs.Devices.{OnlyAsks, devices};

use crate::described::{DescribedMachine, NoClock};
use crate::{DeskCommand, Status};
use bf_machine::Machine;
use bf_world::World;
use desk_base::{Bytes, Clock, Sink, decimal};
use rel_session::{Asking, Halt, PlainReader, answer_lines, put};
use std::alloc::{AllocError, Global};
use world_text::{WorldError, a_world_is_read, one_front, read_world, world_front};

/// Answers the lines of an input by this machine, in the offset 0, each question at a moment of the clock.
pub(crate) fn ask_machine<W: Sink, M: Machine, C: Clock>(
    alloc: Global,
    input: &[u8],
    sink: &mut W,
    machine: &mut M,
    clock: &mut C,
) -> Status
    ensures ends { MachineEnds result input.now
        (devices (W.told sink.old) (M.told machine.old) (C.told clock.old))
        (devices (W.told sink.new) (M.told machine.new) (C.told clock.new)) }
    ensures only { OnlyAsks (result ≡ Status.Sink) (result ≡ Status.Clock)
        (devices (W.told sink.old) (M.told machine.old) (C.told clock.old))
        (devices (W.told sink.new) (M.told machine.new) (C.told clock.new)) }
{
    let asking = Asking {
        offset: 0,
        moment: None,
    };
    match answer_lines::<PlainReader, W, M, C>(alloc, input, asking, sink, machine, clock) {
        Ok(()) => Status::Done,
        Err(halt) => Status::of_halt(halt),
    }
}

/// Reads the world text that an input begins with, and answers the lines behind it by that world.
pub(crate) fn ask_world<W: Sink>(alloc: Global, input: &[u8], sink: &mut W) -> Status
    ensures ends { TextEnds DeskCommand.QnaWorld result input.now (W.told sink.old) (W.told sink.new) (sink.new ≡ sink.old) }
    ensures counts { CountsFaults (result ≡ Status.Sink) (W.told sink.old).faults (W.told sink.new).faults }
{
    // so that an input that is refused is none with the text of a world
    one_front();
    a_world_is_read();
    let front = world_front(input);
    match read_world(alloc, front.world) {
        Ok(world) => ask_described(alloc, world, front.rest, sink),
        Err(WorldError::BadLine(number)) => refuse(alloc, number, sink),
        Err(WorldError::Memory) => Status::Memory,
    }
}

/// Answers lines by a described world, at its moment and in its offset.
fn ask_described<W: Sink>(alloc: Global, world: World, lines: &[u8], sink: &mut W) -> Status
    ensures ends { DescribedEnds result world lines.now (W.told sink.old) (W.told sink.new) }
    ensures counts { CountsFaults (result ≡ Status.Sink) (W.told sink.old).faults (W.told sink.new).faults }
{
    let asking = Asking {
        offset: world.offset(),
        moment: Some(world.moment()),
    };
    let mut machine = DescribedMachine { world };
    match answer_lines::<PlainReader, W, DescribedMachine, NoClock>(
        alloc,
        lines,
        asking,
        sink,
        &mut machine,
        &mut NoClock,
    ) {
        Ok(()) => Status::Done,
        Err(halt) => Status::of_halt(halt),
    }
}

/// Writes the refusal of a world text, alone.
pub(crate) fn refuse<W: Sink>(alloc: Global, number: u32, sink: &mut W) -> Status
    ensures ends { RefusalEnds result number (W.told sink.old) (W.told sink.new) }
    ensures counts { CountsFaults (result ≡ Status.Sink) (W.told sink.old).faults (W.told sink.new).faults }
{
    match write_bad_line(alloc, number, sink) {
        Ok(()) => Status::Refused,
        Err(halt) => Status::of_halt(halt),
    }
}

fn write_bad_line<W: Sink>(alloc: Global, number: u32, sink: &mut W) -> Result<(), Halt>
    ensures written { MatchResult result
        (λ _. Appends (W.told sink.old).held (W.told sink.new).held (bad_line number))
        (λ _. AppendsFront (W.told sink.old).held (W.told sink.new).held (bad_line number)) }
    ensures counts { CountsFaults (IsErrOf result Halt.Sink) (W.told sink.old).faults (W.told sink.new).faults }
    ensures never { ¬ IsErrOf result Halt.Clock }
{
    let mut line = Bytes::new(alloc);
    say_bad_line(number, &mut line)?;
    put(sink, line.as_slice())
}

/// Appends what is said of a world text's first bad line.
#[tactic(auto, unfolding(crate::specs::WorldInputs::bad_line))]
fn say_bad_line(number: u32, out: &mut Bytes) -> Result<(), AllocError>
    ensures { OnOk result (out.new ≡ out.old ++ bad_line number) }
{
    out.extend(b"bad line ")?;
    decimal(u64::from(number), out)?;
    out.push(b'\n')
}
