ghost use Rattle.std.specs.Prelude.{◌≡◌, IfOk, IfSome, Some};
ghost use Rattle.desk_base.specs.Counts.{CountsIf};
ghost use Rattle.line_forms.specs.Numbers.{IsOffset};
ghost use Rattle.bf_world.specs.Worlds.{WorldState};
ghost use Rattle.bf_machine.specs.Views.{OnlyLooks};
ghost use Rattle.rel_value.specs.Operands.{IsSound};
ghost use Rattle.rel_value.specs.Views.{shown};
ghost use Rattle.rel_eval.specs.Cursors.{cursor_rest};
ghost use Rattle.rel_eval.specs.Cuts.{meaning};
ghost use Rattle.rel_eval.specs.Questions.{plan_of};
ghost use Rattle.group_sample.specs.Rows.{most_values};
ghost use Rattle.group_sample.specs.Drawing.{Brings, BringsShort, IsBroughtBy, IsWithin, brought_failed, drawn, none_drawn};

use crate::sample::Values;
use bf_machine::Machine;
use rel_eval::{Cursor, Pulled, Question};
use rel_inspect::Scene;
use rel_lexer::Text;
use rel_value::{Value, ValueFault, text};
use std::alloc::{AllocError, Global};

/// The most values of a row.
const MOST_VALUES: usize = 100;

/// The most bytes of a value's text.
const LONGEST_VALUE: usize = 1024;

/// What was drawn of a question for a row.
#[derive(Drop)]
pub(crate) struct Drawn {
    pub(crate) values: Values,
    pub(crate) error: bool,
}

/// What a pull brings a row.
#[derive(Drop)]
pub(crate) enum Brought {
    /// A value that it keeps.
    Value(Text),
    /// Its end, and whether that is an error.
    Last(bool),
    /// A look failed.
    Nothing,
}

/// Draws a question up to the last value that a row has, or to its end. None where a look failed; the error is want of memory, here
/// and below.
pub(crate) fn draw<M: Machine>(
    alloc: Global,
    question: &Question,
    machine: &mut M,
    scene: &Scene,
) -> Result<Option<Drawn>, AllocError>
    ensures drawn { IfOk result (λ answer. IfSome answer (λ row. (w : WorldState) → (M.told machine.old).world ≡ Some w
        → row ≡ drawn scene.now.offset most_values (meaning w scene.now (plan_of question.now)))) }
    ensures within { IfOk result (λ answer. IfSome answer IsWithin) }
    ensures cause { CountsIf (none_drawn result) (M.told machine.old).faults (M.told machine.new).faults }
    ensures looks { OnlyLooks (M.told machine.old) (M.told machine.new) }
{
    let mut cursor = question.open(alloc, scene)?;
    let mut texts = Vec::new(alloc);
    'value: while texts.len() < MOST_VALUES {
        match bring(alloc, &mut cursor, machine, scene)? {
            Brought::Value(text) => texts.push(text)?,
            Brought::Last(error) => return Ok(Some(into_drawn(texts, error))),
            Brought::Nothing => return Ok(None),
        }
    }
    Ok(Some(into_drawn(texts, false)))
}

fn into_drawn(texts: Vec<Text>, error: bool) -> Drawn
    ensures values { result.values ≡ texts.items }
    ensures error { result.error ≡ error }
{
    Drawn {
        values: Values::from_vec(texts),
        error,
    }
}

/// Pulls once for a row.
fn bring<M: Machine>(
    alloc: Global,
    cursor: &mut Cursor,
    machine: &mut M,
    scene: &Scene,
) -> Result<Brought, AllocError>
    ensures brings { IfOk result (λ brought. (w : WorldState) → (M.told machine.old).world ≡ Some w
        → Brings scene.now.offset (cursor_rest w cursor.old) brought (cursor_rest w cursor.new)) }
    ensures short { IfOk result BringsShort }
    ensures cause { CountsIf (brought_failed result) (M.told machine.old).faults (M.told machine.new).faults }
    ensures looks { OnlyLooks (M.told machine.old) (M.told machine.new) }
{
    match cursor.pull(machine) {
        Pulled::Value(value) => of_value(alloc, &value, scene),
        Pulled::End => Ok(Brought::Last(false)),
        Pulled::Error(_, _) => Ok(Brought::Last(true)),
        Pulled::Failed(_) => Ok(Brought::Nothing),
        Pulled::Memory => Err(AllocError),
        Pulled::Closed => Err(AllocError),
    }
}

/// What a value brings: its text where a row may keep it, and else the row's end in an error.
fn of_value(alloc: Global, value: &Value, scene: &Scene) -> Result<Brought, AllocError>
    requires { IsSound (shown value.now) }
    ensures { IfOk result (IsBroughtBy scene.now.offset (shown value.now)) }
{
    match text(alloc, value, scene.offset) {
        Ok(text) => {
            if text.as_str().len() > LONGEST_VALUE {
                return Ok(Brought::Last(true));
            }
            Ok(Brought::Value(text))
        }
        Err(ValueFault::TextTooLong) => Ok(Brought::Last(true)),
        Err(_) => Err(AllocError),
    }
}
