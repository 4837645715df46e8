ghost use Rattle.std.specs.Prelude.{IsErrOf};
ghost use Rattle.desk_base.specs.Moments.{IsMoment};
ghost use Rattle.line_forms.specs.Numbers.{IsOffset};
ghost use Rattle.rel_session.specs.Devices.{OnlyAsks, IsAsking, devices};
ghost use Rattle.rel_session.specs.Sessions.{Answers, AnswersText, RunsLine};
ghost use Rattle.rel_session.specs.Waiting.{DoesLine, IsFew, Obeys, OnlyTells, SaysDated, SaysOrStopsEarly, session_of, state_of};

use crate::answers::{say_no_command, say_question};
use crate::halt::{Halt, flush};
use crate::opening::{Asked, open_question, say_refusal};
use crate::session::Session;
use crate::{Asking, Line, Reader};
use bf_machine::Machine;
use desk_base::{Bytes, Clock, Sink};
use std::alloc::Global;

impl Session {
    /// Echoes a line and answers it.
    pub(crate) fn run_line<R: Reader, W: Sink, M: Machine, C: Clock>(
        &mut self,
        alloc: Global,
        line: &[u8],
        asking: Asking,
        sink: &mut W,
        machine: &mut M,
        clock: &mut C,
    ) -> Result<(), Halt>
        requires asking { IsAsking asking }
        requires few { IsFew self.old }
        ensures ran { let world = (M.told machine.old).world in
            DoesLine R.reads asking.offset asking.moment (session_of world self.old) line.now (session_of world self.new)
            (devices (W.told sink.old) (M.told machine.old) (C.told clock.old))
            (devices (W.told sink.new) (M.told machine.new) (C.told clock.new)) result }
        ensures few { IsFew self.new }
        ensures only { OnlyAsks (IsErrOf result Halt.Sink) (IsErrOf result Halt.Clock)
            (devices (W.told sink.old) (M.told machine.old) (C.told clock.old))
            (devices (W.told sink.new) (M.told machine.new) (C.told clock.new)) }
    {
        let mut out = Bytes::new(alloc);
        self.say_line::<R, W, M, C>(alloc, line, asking, sink, machine, clock, &mut out)?;
        flush(alloc, sink, &mut out)
    }

    /// Echoes a line and answers it. What is said of it waits in `out`, as below.
    fn say_line<R: Reader, W: Sink, M: Machine, C: Clock>(
        &mut self,
        alloc: Global,
        line: &[u8],
        asking: Asking,
        sink: &mut W,
        machine: &mut M,
        clock: &mut C,
        out: &mut Bytes,
    ) -> Result<(), Halt>
        requires asking { IsAsking asking }
        requires few { IsFew self.old }
        ensures said { let world = (M.told machine.old).world in
            let s = session_of world self.old in
            SaysDated asking.moment (C.told clock.old) (C.told clock.new)
            (RunsLine R.reads world asking.offset s line.now) (session_of world self.new)
            (state_of (W.told sink.old) out.old (M.told machine.old))
            (state_of (W.told sink.new) out.new (M.told machine.new)) result }
        ensures few { IsFew self.new }
        ensures only { OnlyAsks (IsErrOf result Halt.Sink) (IsErrOf result Halt.Clock)
            (devices (W.told sink.old) (M.told machine.old) (C.told clock.old))
            (devices (W.told sink.new) (M.told machine.new) (C.told clock.new)) }
    {
        say_question(line, out)?;
        self.obey::<R, W, M, C>(alloc, line, asking, sink, machine, clock, out)
    }

    /// Does what a line asks for.
    fn obey<R: Reader, W: Sink, M: Machine, C: Clock>(
        &mut self,
        alloc: Global,
        line: &[u8],
        asking: Asking,
        sink: &mut W,
        machine: &mut M,
        clock: &mut C,
        out: &mut Bytes,
    ) -> Result<(), Halt>
        requires asking { IsAsking asking }
        requires few { IsFew self.old }
        ensures said { let world = (M.told machine.old).world in
            let s = session_of world self.old in
            SaysDated asking.moment (C.told clock.old) (C.told clock.new)
            (Obeys R.reads world asking.offset s line.now) (session_of world self.new)
            (state_of (W.told sink.old) out.old (M.told machine.old))
            (state_of (W.told sink.new) out.new (M.told machine.new)) result }
        ensures few { IsFew self.new }
        ensures only { OnlyAsks (IsErrOf result Halt.Sink) (IsErrOf result Halt.Clock)
            (devices (W.told sink.old) (M.told machine.old) (C.told clock.old))
            (devices (W.told sink.new) (M.told machine.new) (C.told clock.new)) }
    {
        match Line::of(line) {
            Line::Question => self.ask::<R, W, M, C>(
                alloc, line, asking, sink, machine, clock, out,
            ),
            Line::Page(size) => {
                self.page = size;
                Ok(())
            }
            Line::More => self.go_on(alloc, asking, sink, machine, out),
            Line::NoCommand => Ok(say_no_command(out)?),
        }
    }

    /// Answers a question at the next moment.
    fn ask<R: Reader, W: Sink, M: Machine, C: Clock>(
        &mut self,
        alloc: Global,
        text: &[u8],
        asking: Asking,
        sink: &mut W,
        machine: &mut M,
        clock: &mut C,
        out: &mut Bytes,
    ) -> Result<(), Halt>
        requires asking { IsAsking asking }
        requires few { IsFew self.old }
        ensures said { let world = (M.told machine.old).world in
            let s = session_of world self.old in
            SaysDated asking.moment (C.told clock.old) (C.told clock.new)
            (Answers R.reads world asking.offset s text.now Line.Question) (session_of world self.new)
            (state_of (W.told sink.old) out.old (M.told machine.old))
            (state_of (W.told sink.new) out.new (M.told machine.new)) result }
        ensures few { IsFew self.new }
        ensures only { OnlyAsks (IsErrOf result Halt.Sink) (IsErrOf result Halt.Clock)
            (devices (W.told sink.old) (M.told machine.old) (C.told clock.old))
            (devices (W.told sink.new) (M.told machine.new) (C.told clock.new)) }
    {
        let moment = asking.next_moment(clock)?;
        self.answer::<R, W, M>(alloc, text, Asked { moment, asking }, sink, machine, out)
    }

    /// Answers a question.
    fn answer<R: Reader, W: Sink, M: Machine>(
        &mut self,
        alloc: Global,
        text: &[u8],
        asked: Asked,
        sink: &mut W,
        machine: &mut M,
        out: &mut Bytes,
    ) -> Result<(), Halt>
        requires offset { IsOffset asked.asking.offset }
        requires moment { IsMoment asked.moment }
        requires few { IsFew self.old }
        ensures said { let world = (M.told machine.old).world in
            SaysOrStopsEarly (AnswersText R.reads world asked.moment asked.asking.offset (session_of world self.old) text.now)
            (session_of world self.new)
            (state_of (W.told sink.old) out.old (M.told machine.old))
            (state_of (W.told sink.new) out.new (M.told machine.new)) result }
        ensures few { IsFew self.new }
        ensures only { OnlyTells (IsErrOf result Halt.Sink) (IsErrOf result Halt.Clock)
            (state_of (W.told sink.old) out.old (M.told machine.old))
            (state_of (W.told sink.new) out.new (M.told machine.new)) }
    {
        let opened = match open_question::<R>(alloc, text, asked) {
            Ok(opened) => opened,
            Err(refusal) => return Ok(say_refusal(alloc, refusal, out)?),
        };
        self.tell(alloc, opened, asked.asking, sink, machine, out)
    }
}
