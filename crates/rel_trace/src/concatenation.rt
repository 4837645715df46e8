ghost use Rattle.std.specs.Prelude.{◌≡◌, [], ◌++◌, ◌≤◌, length, MatchOption};
ghost use Rattle.rel_lexer.specs.declared.operator.BinarySign.TheVariants.{Join};
ghost use Rattle.rel_value.specs.Operands.{IsSound, bytes, stance};
ghost use Rattle.rel_value.specs.Outcomes.{Outcome, bounded, gives};
ghost use Rattle.rel_value.specs.Plain.{words};
ghost use Rattle.rel_value.specs.Signs.{joined, op};
ghost use Rattle.rel_value.specs.Views.{shown};
ghost use Rattle.rel_trace.specs.Folds.{and_joined, in_full, joined_by};
ghost use Rattle.rel_trace.specs.Scopes.{lent};
ghost use Rattle.rel_trace.specs.Works.{IsNoText, Works};

use crate::worked::Worked;
use crate::{Held, RelKind};
use rel_lexer::Text;
use rel_value::Value;
use std::alloc::Global;

/// The most bytes of a text.
const LONGEST: usize = 1_048_576;

/// The empty text.
pub(crate) fn empty_text(alloc: Global) -> Worked
    ensures { Works (gives (words [])) result }
{
    text_of(alloc, "")
}

/// The bytes of a text or a part.
fn text_in(value: &Value) -> Option<&str>
    requires { IsSound (shown value.now) }
    ensures { MatchOption result (IsNoText (stance (shown value.now))) (λ text. stance (shown value.now) ≡ bytes text.now) }
{
    match value {
        Value::Text(text) => Some(text.as_str()),
        Value::Part { whole, from, to } => Some(&whole.as_str()[*from as usize..*to as usize]),
        _ => None,
    }
}

/// The bytes of a part.
fn part_in(value: &Value) -> Option<&str>
    requires { IsSound (shown value.now) }
    ensures { MatchOption result (in_full (shown value.now) ≡ shown value.now)
        (λ text. (in_full (shown value.now) ≡ words text.now) × (length text.now ≤ 4294967295)) }
{
    match value {
        Value::Part { whole, from, to } => Some(&whole.as_str()[*from as usize..*to as usize]),
        _ => None,
    }
}

/// A text with more at its end. It grows in place.
fn grown(text: Text, more: &str) -> Worked
    ensures { Works (bounded (text ++ more.now)) result }
{
    let mut text = text;
    if text.as_str().len() > LONGEST || more.len() > LONGEST - text.as_str().len() {
        return Worked::Failed(RelKind::TextTooLong);
    }
    match text.push(more) {
        Ok(()) => Worked::Given(Held::new(Value::Text(text))),
        Err(_) => Worked::Memory,
    }
}

/// A text with another one behind it.
fn joined(alloc: Global, held: Held, more: &Held) -> Worked
    ensures { Works (op Join held more.now) result }
{
    match text_in(more.value()) {
        None => Worked::Without,
        Some(text) => joined_with(alloc, held, text),
    }
}

fn joined_with(alloc: Global, held: Held, more: &str) -> Worked
    ensures { Works (joined (stance held) (bytes more.now)) result }
{
    match held.into_value() {
        Value::Text(text) => grown(text, more),
        other => grown_copy(alloc, &other, more),
    }
}

/// The text of a value with more at its end, in a text of its own.
fn grown_copy(alloc: Global, value: &Value, more: &str) -> Worked
    requires { IsSound (shown value.now) }
    ensures { Works (joined (stance (shown value.now)) (bytes more.now)) result }
{
    match text_in(value) {
        None => Worked::Without,
        Some(text) => match Text::from_str(alloc, text) {
            Ok(text) => grown(text, more),
            Err(_) => Worked::Memory,
        },
    }
}

/// What was made with a text behind it, where something was made.
fn and_joined(alloc: Global, worked: Worked, more: &Held) -> Worked
    ensures { (o : Outcome) → Works o worked → Works (and_joined o more.now) result }
{
    match worked {
        Worked::Given(text) => joined(alloc, text, more),
        other => other,
    }
}

/// A text behind what is held, and between them the separator, if there is one.
pub(crate) fn joined_by(
    alloc: Global,
    separator: Option<&Held>,
    held: Option<Held>,
    value: Held,
) -> Worked
    ensures { Works (joined_by (lent separator.entry) held value) result }
{
    match held {
        None => and_joined(alloc, empty_text(alloc), &value),
        Some(text) => match separator {
            None => joined(alloc, text, &value),
            Some(between) => and_joined(alloc, joined(alloc, text, between), &value),
        },
    }
}

/// A value in full: a part stands for its text.
pub(crate) fn in_full(alloc: Global, value: Held) -> Worked
    ensures { Works (gives (in_full value)) result }
{
    match part_in(value.value()) {
        None => Worked::Given(value),
        Some(text) => text_of(alloc, text),
    }
}

/// A text of these bytes.
fn text_of(alloc: Global, bytes: &str) -> Worked
    requires { length bytes.now ≤ 4294967295 }
    ensures { Works (gives (words bytes.now)) result }
{
    match Text::from_str(alloc, bytes) {
        Ok(text) => Worked::Given(Held::new(Value::Text(text))),
        Err(_) => Worked::Memory,
    }
}
