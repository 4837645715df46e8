ghost use Rattle.std.specs.Prelude.{◌≡◌, true, false, List, [], Some};
ghost use Rattle.desk_base.specs.Counts.{CountsIf};
ghost use Rattle.bf_machine.specs.Views.{OnlyLooks};
ghost use Rattle.bf_world.specs.declared.key.Key.{Key};
ghost use Rattle.bf_world.specs.Worlds.{WorldState};
ghost use Rattle.rel_types.specs.Alike.{same_kind};
ghost use Rattle.rel_types.specs.Plans.{is_plural, kind_of};
ghost use Rattle.rel_value.specs.Plain.{booleans};
ghost use Rattle.rel_value.specs.Views.{shown};
ghost use Rattle.rel_trace.specs.Trace.{Trace, each};
ghost use Rattle.rel_nodes.specs.Spans.{span_of_node};
ghost use Rattle.rel_eval.specs.Cuts.{meaning};
ghost use Rattle.rel_eval.specs.Questions.{plan_of};
ghost use Rattle.rel_eval.specs.Ones.{TellsOne, one_has_failed};
ghost use Rattle.rel_eval.specs.Singles.{Judges, TellsTruth, judged, truth_has_failed, truth_of};

use crate::one_value::{OneValue, one_value};
use crate::question::Question;
use crate::told::Truth;
use bf_machine::Machine;
use rel_inspect::Scene;
use rel_lexer::Place;
use rel_trace::RelKind;
use rel_value::{Kind, Value};
use std::alloc::Global;

/// Asks a question for a truth: draws one that is singular and Boolean to its end. Of another one it makes no look.
pub fn truth<M: Machine>(
    alloc: Global,
    question: &Question,
    machine: &mut M,
    scene: &Scene,
) -> Truth
    ensures plural { is_plural (plan_of question.now) ≡ true
        → (result ≡ Truth.Error RelKind.NotSingular (span_of_node (plan_of question.now))) × (machine.new ≡ machine.old) }
    ensures other { is_plural (plan_of question.now) ≡ false → same_kind (kind_of (plan_of question.now)) booleans ≡ false
        → (result ≡ Truth.Error RelKind.Incompatible (span_of_node (plan_of question.now))) × (machine.new ≡ machine.old) }
    ensures judges { is_plural (plan_of question.now) ≡ false → same_kind (kind_of (plan_of question.now)) booleans ≡ true
        → (w : WorldState) → (M.told machine.old).world ≡ Some w
        → Judges (M.told machine.old).looked
        (truth_of (span_of_node (plan_of question.now)) (meaning w scene.now (plan_of question.now))) result
        (M.told machine.new).looked }
    ensures cause { CountsIf (truth_has_failed result) (M.told machine.old).faults (M.told machine.new).faults }
    ensures looks { OnlyLooks (M.told machine.old) (M.told machine.new) }
{
    let span = question.span();
    if question.plan().is_plural() {
        return Truth::Error(RelKind::NotSingular, span);
    }
    if !question.plan().kind().is(&Kind::Boolean) {
        return Truth::Error(RelKind::Incompatible, span);
    }
    told(one_value(alloc, question, machine, scene), span)
}

/// The truth of what was drawn.
fn told(drawn: OneValue, span: Place) -> Truth
    ensures tells { (t : Trace) (looks : List Key) → TellsOne t drawn looks → TellsTruth (each t (judged span)) result looks }
    ensures failed { truth_has_failed result ≡ one_has_failed drawn }
{
    match drawn {
        OneValue::Value(value) => judged(&value, span),
        OneValue::Error(kind, place) => Truth::Error(kind, place),
        OneValue::Failed(place) => Truth::Failed(place),
        OneValue::Memory => Truth::Memory,
    }
}

/// The truth of a value. One that is none is Incompatible at the question's span.
fn judged(value: &Value, span: Place) -> Truth
    ensures tells { TellsTruth (judged span (shown value.now)) result [] }
    ensures failed { truth_has_failed result ≡ false }
{
    match value {
        Value::Boolean(true) => Truth::True,
        Value::Boolean(false) => Truth::False,
        _ => Truth::Error(RelKind::Incompatible, span),
    }
}
