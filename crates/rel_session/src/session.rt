ghost use Rattle.std.specs.Prelude.{◌≡◌, IsErrOf, OnOk, Option, Some};
ghost use Rattle.bf_world.specs.Worlds.{WorldState};
ghost use Rattle.line_forms.specs.Numbers.{IsOffset};
ghost use Rattle.rel_session.specs.Sessions.{GoesOnWith, IsGiven, TellsOf, fresh, pausing};
ghost use Rattle.rel_session.specs.Tellings.{room_of};
ghost use Rattle.rel_session.specs.Waiting.{IsFew, OnlyTells, SaysOrStops, last_fifteen, left_of, session_of, some_given, state_of};

use crate::answers::say_nothing_paused;
use crate::paused::{Left, Paused};
use crate::{Asking, Halt};
use bf_machine::Machine;
use desk_base::{Bytes, Sink};
use std::alloc::{AllocError, Global};
use std::mem::drop;

/// The most questions that are paused.
const MOST_PAUSED: usize = 16;

/// How many values are told at a time, and the questions that are paused.
#[derive(Drop)]
pub(crate) struct Session {
    /// 0 for all values at once.
    pub(crate) page: u64,
    /// The latest one last.
    pub(crate) paused: Vec<Paused>,
}

impl Session {
    /// All values at once, and no question is paused.
    pub(crate) fn new(alloc: Global) -> Session
        ensures fresh { (world : Option WorldState) → session_of world result ≡ fresh }
        ensures few { IsFew result }
    {
        Session {
            page: 0,
            paused: Vec::new(alloc),
        }
    }

    /// Goes on with the question that was paused last.
    pub(crate) fn go_on<W: Sink, M: Machine>(
        &mut self,
        alloc: Global,
        asking: Asking,
        sink: &mut W,
        machine: &mut M,
        out: &mut Bytes,
    ) -> Result<(), Halt>
        requires offset { IsOffset asking.offset }
        requires few { IsFew self.old }
        ensures said { let world = (M.told machine.old).world in
            let s = session_of world self.old in
            SaysOrStops (GoesOnWith world asking.offset s s.paused) (session_of world self.new)
            (state_of (W.told sink.old) out.old (M.told machine.old))
            (state_of (W.told sink.new) out.new (M.told machine.new)) result }
        ensures few { IsFew self.new }
        ensures only { OnlyTells (IsErrOf result Halt.Sink) (IsErrOf result Halt.Clock)
            (state_of (W.told sink.old) out.old (M.told machine.old))
            (state_of (W.told sink.new) out.new (M.told machine.new)) }
    {
        match self.paused.pop() {
            Some(latest) => self.tell(alloc, latest, asking, sink, machine, out),
            None => Ok(say_nothing_paused(out)?),
        }
    }

    /// Tells a page of a question, and pauses it where values may be left.
    pub(crate) fn tell<W: Sink, M: Machine>(
        &mut self,
        alloc: Global,
        question: Paused,
        asking: Asking,
        sink: &mut W,
        machine: &mut M,
        out: &mut Bytes,
    ) -> Result<(), Halt>
        requires offset { IsOffset asking.offset }
        requires few { IsFew self.old }
        ensures said { let world = (M.told machine.old).world in
            let given = IsGiven world (left_of question.cursor) in
            SaysOrStops (TellsOf asking.offset (session_of world self.old) given question.span) (session_of world self.new)
            (state_of (W.told sink.old) out.old (M.told machine.old))
            (state_of (W.told sink.new) out.new (M.told machine.new)) result }
        ensures few { IsFew self.new }
        ensures only { OnlyTells (IsErrOf result Halt.Sink) (IsErrOf result Halt.Clock)
            (state_of (W.told sink.old) out.old (M.told machine.old))
            (state_of (W.told sink.new) out.new (M.told machine.new)) }
    {
        let mut question = question;
        match question.tell(alloc, room_of(self.page), asking, sink, machine, out) {
            Ok(Left::Nothing) => {
                drop(question);
                Ok(())
            }
            Ok(Left::More) => Ok(self.pause(question)?),
            Err(halt) => {
                drop(question);
                Err(halt)
            }
        }
    }

    /// Pauses a question. Of seventeen the oldest is dropped.
    fn pause(&mut self, question: Paused) -> Result<(), AllocError>
        requires { IsFew self.old }
        ensures paused { (world : Option WorldState) → OnOk result (session_of world self.new
            ≡ pausing (session_of world self.old) (Some (some_given world (left_of question.cursor))) question.span) }
        ensures few { IsFew self.new }
    {
        self.make_room();
        self.paused.push(question)?;
        Ok(())
    }

    /// Drops the oldest of sixteen paused questions.
    fn make_room(&mut self)
        requires { IsFew self.old }
        ensures page { self.new.page ≡ self.old.page }
        ensures last { self.new.paused.items ≡ last_fifteen self.old.paused.items }
    {
        if self.paused.len() == MOST_PAUSED {
            drop(self.paused.remove(0));
        }
    }
}

/// The room of a page of so many values.
fn room_of(page: u64) -> Option<u64>
    ensures { result ≡ room_of page }
{
    if page == 0 {
        return None;
    }
    Some(page - 1)
}
