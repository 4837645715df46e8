// Drawing a question to its end for the one value that it gives.
ghost use Rattle.std.specs.Prelude.{◌≡◌, Some};
ghost use Rattle.desk_base.specs.Counts.{CountsIf};
ghost use Rattle.bf_machine.specs.Views.{OnlyLooks};
ghost use Rattle.bf_world.specs.Worlds.{WorldState};
ghost use Rattle.rel_value.specs.Operands.{IsSound};
ghost use Rattle.rel_value.specs.Views.{shown};
ghost use Rattle.rel_trace.specs.Draws.{single, single_from};
ghost use Rattle.rel_nodes.specs.Spans.{span_of_node};
ghost use Rattle.rel_eval.specs.Cursors.{cursor_rest};
ghost use Rattle.rel_eval.specs.Cuts.{meaning};
ghost use Rattle.rel_eval.specs.Questions.{plan_of};
ghost use Rattle.rel_eval.specs.Ones.{Ones, OneIsSound, one_has_failed};

use crate::cursor::{Cursor, Pulled};
use crate::question::Question;
use bf_machine::Machine;
use rel_inspect::Scene;
use rel_lexer::Place;
use rel_trace::RelKind;
use rel_value::Value;
use std::alloc::Global;

/// The one value of a question, or what stands in its place.
#[derive(Drop)]
pub(crate) enum OneValue {
    Value(Value),
    Error(RelKind, Place),
    Failed(Place),
    Memory,
}

/// Draws a question to its end. No value is Nonexistent and a second one NonUnique, at the question's span.
pub(crate) fn one_value<M: Machine>(
    alloc: Global,
    question: &Question,
    machine: &mut M,
    scene: &Scene,
) -> OneValue
    ensures goes { (w : WorldState) → (M.told machine.old).world ≡ Some w
        → Ones (M.told machine.old).looked
        (single (span_of_node (plan_of question.now)) (meaning w scene.now (plan_of question.now))) result
        (M.told machine.new).looked }
    ensures sound { OneIsSound result }
    ensures cause { CountsIf (one_has_failed result) (M.told machine.old).faults (M.told machine.new).faults }
    ensures looks { OnlyLooks (M.told machine.old) (M.told machine.new) }
{
    let span = question.span();
    let mut cursor = match question.open(alloc, scene) {
        Ok(cursor) => cursor,
        Err(_) => return OneValue::Memory,
    };
    match cursor.pull(machine) {
        Pulled::Value(value) => only(value, &mut cursor, span, machine),
        Pulled::End => OneValue::Error(RelKind::Nonexistent, span),
        Pulled::Error(kind, place) => OneValue::Error(kind, place),
        Pulled::Failed(place) => OneValue::Failed(place),
        Pulled::Memory => OneValue::Memory,
        Pulled::Closed => OneValue::Memory,
    }
}

/// A value that was given, where no other one follows.
fn only<M: Machine>(value: Value, cursor: &mut Cursor, span: Place, machine: &mut M) -> OneValue
    requires sound { IsSound (shown value) }
    ensures goes { (w : WorldState) → (M.told machine.old).world ≡ Some w
        → Ones (M.told machine.old).looked (single_from span (Some (shown value)) (cursor_rest w cursor.old)) result
        (M.told machine.new).looked }
    ensures sound { OneIsSound result }
    ensures cause { CountsIf (one_has_failed result) (M.told machine.old).faults (M.told machine.new).faults }
    ensures looks { OnlyLooks (M.told machine.old) (M.told machine.new) }
{
    match cursor.pull(machine) {
        Pulled::Value(_) => OneValue::Error(RelKind::NonUnique, span),
        Pulled::End => OneValue::Value(value),
        Pulled::Error(kind, place) => OneValue::Error(kind, place),
        Pulled::Failed(place) => OneValue::Failed(place),
        Pulled::Memory => OneValue::Memory,
        Pulled::Closed => OneValue::Memory,
    }
}
