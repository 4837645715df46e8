ghost use Rattle.std.specs.Prelude.{◌≡◌, ℤ, IfOk, MatchResult, IsErrOf};
ghost use Rattle.desk_base.specs.Counts.{CountsFaults};
ghost use Rattle.desk_base.specs.Flow.{AppendsSome, IsFront};
ghost use Rattle.bf_machine.specs.Views.{OnlyLooks};
ghost use Rattle.line_forms.specs.Numbers.{IsOffset};
ghost use Rattle.rel_lexer.specs.declared.place.Place.{Place};
ghost use Rattle.rel_value.specs.Operands.{IsSound};
ghost use Rattle.rel_value.specs.Views.{shown};
ghost use Rattle.rel_trace.specs.Trace.{After, Give};
ghost use Rattle.rel_eval.specs.Cursors.{weight};
ghost use Rattle.rel_session.specs.Sessions.{told_run};
ghost use Rattle.rel_session.specs.Tellings.{GoesOn, Telling, Tells};
ghost use Rattle.rel_session.specs.Waiting.{Flushes, IsLeft, IsNearer, OnlyTells, Says, Stays, Stops, TellsLeft, TellsStep, TellsValue, left_of, some_given, state_of};

use crate::Asking;
use crate::answers::{say_error, say_fault, say_more, say_value};
use crate::halt::{Halt, flush};
use bf_machine::Machine;
use desk_base::{Bytes, Sink};
use rel_eval::{Cursor, Pulled, RelKind};
use rel_lexer::Place;
use rel_value::{Value, ValueFault, text};
use std::alloc::{AllocError, Global};

/// From so many bytes on, what is told of a question is written before more is drawn.
const PIECE: usize = 32_768;

/// A question that is told, and how far it has come.
#[derive(Drop)]
pub(crate) struct Paused {
    pub(crate) cursor: Cursor,
    /// The place of the whole question.
    pub(crate) span: Place,
}

/// Whether a question goes on after a value.
#[derive(Clone, Copy)]
pub(crate) enum Left {
    /// It is over.
    Nothing,
    /// It is paused.
    More,
}

/// What telling one value leaves to do.
#[derive(Clone, Copy)]
pub(crate) enum Step {
    /// Telling goes on with this room.
    On(Option<u64>),
    /// It ends here.
    Out(Left),
}

impl Paused {
    /// Tells values until the question is over or a page is full. A room of none is without a bound, and else counts the values
    /// before the page's last one. What is told waits in `out`, and is written where it has grown long.
    pub(crate) fn tell<W: Sink, M: Machine>(
        &mut self,
        alloc: Global,
        room: Option<u64>,
        asking: Asking,
        sink: &mut W,
        machine: &mut M,
        out: &mut Bytes,
    ) -> Result<Left, Halt>
        requires offset { IsOffset asking.offset }
        ensures told { let world = (M.told machine.old).world in
            let old = state_of (W.told sink.old) out.old (M.told machine.old) in
            let new = state_of (W.told sink.new) out.new (M.told machine.new) in
            (told : Telling) × TellsLeft world asking.offset self.old.span self.old.cursor room told × MatchResult result
            (λ left. IsLeft left told.rest (some_given world (left_of self.new.cursor)) × Says old new (told_run told))
            (λ _. Stops old new (told_run told)) }
        ensures span { self.new.span ≡ self.old.span }
        ensures only { OnlyTells (IsErrOf result Halt.Sink) (IsErrOf result Halt.Clock)
            (state_of (W.told sink.old) out.old (M.told machine.old))
            (state_of (W.told sink.new) out.new (M.told machine.new)) }
    {
        let mut room = room;
        'page: loop {
            match self.tell_one(alloc, room, asking, machine, out)? {
                Step::Out(left) => return Ok(left),
                Step::On(left) => room = left,
            }
            flush_long(alloc, sink, out)?;
        }
    }

    /// Tells the next value, or how the question ends. The error is want of memory, here and below.
    fn tell_one<M: Machine>(
        &mut self,
        alloc: Global,
        room: Option<u64>,
        asking: Asking,
        machine: &mut M,
        out: &mut Bytes,
    ) -> Result<Step, AllocError>
        requires offset { IsOffset asking.offset }
        ensures told { let world = (M.told machine.old).world in
            let tells = TellsLeft world asking.offset self.old.span self.old.cursor room in
            MatchResult result
            (λ step. TellsStep world (TellsLeft world asking.offset self.old.span self.new.cursor) tells step
            (some_given world (left_of self.new.cursor)) out.old (M.told machine.old) out.new (M.told machine.new))
            (λ _. Stays world tells (M.told machine.old) (M.told machine.new)) }
        ensures nearer { MatchResult result
            (λ step. IsNearer step (weight self.old.cursor) (weight self.new.cursor)) (λ _. Unit {0}) }
        ensures span { self.new.span ≡ self.old.span }
        ensures looks { OnlyLooks (M.told machine.old) (M.told machine.new) }
    {
        match self.cursor.pull(machine) {
            Pulled::Value(value) => tell_value(alloc, &value, self.span, room, asking, out),
            Pulled::End => Ok(Step::Out(Left::Nothing)),
            Pulled::Error(kind, place) => {
                say_error(alloc, kind, place, out)?;
                Ok(Step::Out(Left::Nothing))
            }
            Pulled::Failed(place) => {
                say_fault(alloc, place, out)?;
                Ok(Step::Out(Left::Nothing))
            }
            Pulled::Memory => Err(AllocError),
            Pulled::Closed => Err(AllocError),
        }
    }
}

/// Writes what waits where it has grown long.
fn flush_long<W: Sink>(alloc: Global, sink: &mut W, out: &mut Bytes) -> Result<(), Halt>
    ensures written { MatchResult result
        (λ _. Flushes (W.told sink.old).held (W.told sink.new).held out.old out.new)
        (λ _. AppendsSome (W.told sink.old).held (W.told sink.new).held (IsFront out.old)) }
    ensures counts { CountsFaults (IsErrOf result Halt.Sink) (W.told sink.old).faults (W.told sink.new).faults }
    ensures never { ¬ IsErrOf result Halt.Clock }
{
    if out.as_slice().len() < PIECE {
        return Ok(());
    }
    flush(alloc, sink, out)
}

/// Tells a value.
fn tell_value(
    alloc: Global,
    value: &Value,
    span: Place,
    room: Option<u64>,
    asking: Asking,
    out: &mut Bytes,
) -> Result<Step, AllocError>
    requires sound { IsSound (shown value.now) }
    requires offset { IsOffset asking.offset }
    ensures { IfOk result (λ step. TellsValue asking.offset span
        (λ t. Tells asking.offset span room (After (Give (shown value.now)) t)) step out.old out.new) }
{
    match text(alloc, value, asking.offset) {
        Ok(text) => {
            say_value(&text, out)?;
            after_value(room, out)
        }
        Err(ValueFault::TextTooLong) => {
            say_error(alloc, RelKind::TextTooLong, span, out)?;
            Ok(Step::Out(Left::Nothing))
        }
        Err(_) => Err(AllocError),
    }
}

/// Pauses the question where a page is full.
fn after_value(room: Option<u64>, out: &mut Bytes) -> Result<Step, AllocError>
    ensures { (offset : ℤ) (span : Place) → IfOk result
        (λ step. TellsValue offset span (λ t. GoesOn room t (λ left. Tells offset span left t)) step out.old out.new) }
{
    match room {
        None => Ok(Step::On(None)),
        Some(0) => {
            say_more(out)?;
            Ok(Step::Out(Left::More))
        }
        Some(more) => Ok(Step::On(Some(more - 1))),
    }
}
