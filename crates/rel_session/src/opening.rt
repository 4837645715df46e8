ghost use Rattle.std.specs.Prelude.{Err, IfOk, MatchResult, OnOk};
ghost use Rattle.desk_base.specs.Moments.{IsMoment};
ghost use Rattle.line_forms.specs.Numbers.{IsOffset};
ghost use Rattle.rel_session.specs.Waiting.{IsOpened, IsRead, IsStarted, SaysRefusal};

use crate::answers::{say_error, say_undefined};
use crate::paused::Paused;
use crate::{Asking, Reader};
use desk_base::Bytes;
use rel_eval::{Question, Refusal};
use rel_inspect::{Pairs, Scene};
use std::alloc::{AllocError, Global};
use std::mem::drop;

/// When and where a question is asked.
#[derive(Clone, Copy)]
pub(crate) struct Asked {
    pub(crate) moment: i64,
    pub(crate) asking: Asking,
}

/// The question that a text is, at its start, at a moment.
pub(crate) fn open_question<R: Reader>(
    alloc: Global,
    text: &[u8],
    asked: Asked,
) -> Result<Paused, Refusal>
    requires moment { IsMoment asked.moment }
    requires offset { IsOffset asked.asking.offset }
    ensures { MatchResult result (IsOpened R.reads asked.moment asked.asking.offset text.now)
        (λ refusal. IsRead R.reads text.now (Err refusal)) }
{
    let question = match read_question::<R>(alloc, text) {
        Ok(question) => question,
        Err(refusal) => return Err(refusal),
    };
    let started = start(alloc, &question, asked);
    drop(question);
    match started {
        Ok(paused) => Ok(paused),
        Err(_) => Err(Refusal::Memory),
    }
}

fn read_question<R: Reader>(alloc: Global, text: &[u8]) -> Result<Question, Refusal>
    ensures { IsRead R.reads text.now result }
{
    R::read(alloc, text)
}

fn start(alloc: Global, question: &Question, asked: Asked) -> Result<Paused, AllocError>
    requires moment { IsMoment asked.moment }
    requires offset { IsOffset asked.asking.offset }
    ensures { IfOk result (IsStarted asked.moment asked.asking.offset question.now) }
{
    let scene = Scene {
        moment: asked.moment,
        offset: asked.asking.offset,
        parameters: Pairs::new(alloc),
        exit: None,
    };
    let cursor = question.open(alloc, &scene)?;
    Ok(Paused {
        cursor,
        span: question.span(),
    })
}

/// Appends what a refusal says.
pub(crate) fn say_refusal(
    alloc: Global,
    refusal: Refusal,
    out: &mut Bytes,
) -> Result<(), AllocError>
    ensures { OnOk result (SaysRefusal refusal out.old out.new) }
{
    match refusal {
        Refusal::At(kind, place) => say_error(alloc, kind, place, out),
        Refusal::NotDefined(place, words) => say_undefined(alloc, place, &words, out),
        Refusal::Memory => Err(AllocError),
    }
}
