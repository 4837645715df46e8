ghost use Rattle.std.specs.Prelude.{◌≡◌, true, false, List, [], Some};
ghost use Rattle.desk_base.specs.Counts.{CountsIf};
ghost use Rattle.bf_machine.specs.Views.{OnlyLooks};
ghost use Rattle.line_forms.specs.Numbers.{IsOffset};
ghost use Rattle.bf_world.specs.declared.key.Key.{Key};
ghost use Rattle.bf_world.specs.Worlds.{WorldState};
ghost use Rattle.rel_value.specs.Operands.{IsSound};
ghost use Rattle.rel_value.specs.Views.{shown};
ghost use Rattle.rel_trace.specs.Trace.{Trace, each};
ghost use Rattle.rel_types.specs.Plans.{is_plural};
ghost use Rattle.rel_nodes.specs.Spans.{span_of_node};
ghost use Rattle.rel_eval.specs.Cuts.{meaning};
ghost use Rattle.rel_eval.specs.Questions.{plan_of};
ghost use Rattle.rel_eval.specs.Ones.{OneIsSound, TellsOne, one_has_failed};
ghost use Rattle.rel_eval.specs.Singles.{TellsText, Words, one_text_of, text_has_failed, worded};

use crate::one_value::{OneValue, one_value};
use crate::question::Question;
use crate::told::OneText;
use bf_machine::Machine;
use rel_inspect::Scene;
use rel_lexer::Place;
use rel_trace::RelKind;
use rel_value::{Value, ValueFault, text};
use std::alloc::Global;

/// Asks a question for the text of its value: draws one that is singular to its end. Of a plural one it makes no look. Times are written
/// as a clock at the scene's offset shows them.
pub fn one_text<M: Machine>(
    alloc: Global,
    question: &Question,
    machine: &mut M,
    scene: &Scene,
) -> OneText
    ensures plural { is_plural (plan_of question.now) ≡ true
        → (result ≡ OneText.Error RelKind.NotSingular (span_of_node (plan_of question.now))) × (machine.new ≡ machine.old) }
    ensures words { is_plural (plan_of question.now) ≡ false → (w : WorldState) → (M.told machine.old).world ≡ Some w
        → Words (M.told machine.old).looked
        (one_text_of (span_of_node (plan_of question.now)) scene.now.offset (meaning w scene.now (plan_of question.now))) result
        (M.told machine.new).looked }
    ensures cause { CountsIf (text_has_failed result) (M.told machine.old).faults (M.told machine.new).faults }
    ensures looks { OnlyLooks (M.told machine.old) (M.told machine.new) }
{
    let span = question.span();
    if question.plan().is_plural() {
        return OneText::Error(RelKind::NotSingular, span);
    }
    told(
        alloc,
        one_value(alloc, question, machine, scene),
        scene.offset,
        span,
    )
}

/// The text of what was drawn.
fn told(alloc: Global, drawn: OneValue, offset: i64, span: Place) -> OneText
    requires offset { IsOffset offset }
    requires sound { OneIsSound drawn }
    ensures tells { (t : Trace) (looks : List Key) → TellsOne t drawn looks
        → TellsText (each t (worded span offset)) result looks }
    ensures failed { text_has_failed result ≡ one_has_failed drawn }
{
    match drawn {
        OneValue::Value(value) => worded(alloc, &value, offset, span),
        OneValue::Error(kind, place) => OneText::Error(kind, place),
        OneValue::Failed(place) => OneText::Failed(place),
        OneValue::Memory => OneText::Memory,
    }
}

/// The text of a value. One that is too long is an error at the question's span.
fn worded(alloc: Global, value: &Value, offset: i64, span: Place) -> OneText
    requires offset { IsOffset offset }
    requires sound { IsSound (shown value.now) }
    ensures tells { TellsText (worded span offset (shown value.now)) result [] }
    ensures failed { text_has_failed result ≡ false }
{
    match text(alloc, value, offset) {
        Ok(text) => OneText::Text(text),
        Err(ValueFault::TextTooLong) => OneText::Error(RelKind::TextTooLong, span),
        Err(_) => OneText::Memory,
    }
}
