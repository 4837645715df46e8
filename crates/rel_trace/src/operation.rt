ghost use Rattle.line_forms.specs.Numbers.{IsOffset};
ghost use Rattle.rel_value.specs.Casts.{cast};
ghost use Rattle.rel_value.specs.Operands.{stance};
ghost use Rattle.rel_value.specs.Outcomes.{Outcome};
ghost use Rattle.rel_value.specs.Signs.{negated, op};
ghost use Rattle.rel_value.specs.Views.{shown};
ghost use Rattle.rel_trace.specs.Folds.{beyond, later_if, signed};
ghost use Rattle.rel_trace.specs.Joins.{op_left};
ghost use Rattle.rel_trace.specs.Ones.{inverted};
ghost use Rattle.rel_trace.specs.Scopes.{lent};
ghost use Rattle.rel_trace.specs.Works.{Works};

use crate::Held;
use crate::worked::Worked;
use rel_lexer::BinarySign;
use rel_value::{Cast, Value, binary, cast, has_cast, has_negation, has_row, negate};
use std::alloc::Global;

/// What a sign gives for two values.
pub(crate) fn operate(alloc: Global, sign: BinarySign, left: &Held, right: &Held) -> Worked
    ensures { Works (op sign left.now right.now) result }
{
    let left = left.value();
    let right = right.value();
    if has_row(sign, left, right) {
        Worked::of(binary(alloc, sign, left, right))
    } else {
        Worked::Without
    }
}

/// What a sign gives for the left value in scope and a right one.
pub(crate) fn operate_left(
    alloc: Global,
    sign: BinarySign,
    left: Option<&Held>,
    right: &Held,
) -> Worked
    ensures { Works (op_left sign (lent left.entry) right.now) result }
{
    match left {
        Some(left) => operate(alloc, sign, left, right),
        None => Worked::Without,
    }
}

/// `-` before a value.
pub(crate) fn opposite(value: &Held) -> Worked
    ensures { Works (negated (stance value.now)) result }
{
    let value = value.value();
    if has_negation(value) {
        Worked::of(negate(value))
    } else {
        Worked::Without
    }
}

/// `not` before a value.
pub(crate) fn inverse(value: &Held) -> Worked
    ensures { Works (inverted value.now) result }
{
    inverse_of(value.value())
}

fn inverse_of(value: &Value) -> Worked
    ensures { Works (inverted (shown value.now)) result }
{
    match value {
        Value::Boolean(truth) => Worked::Given(Held::boolean(!*truth)),
        _ => Worked::Without,
    }
}

/// A value cast, with times as a clock shows them that is `offset` minutes east of UTC.
pub(crate) fn cast_of(alloc: Global, to: Cast, value: &Held, offset: i64) -> Worked
    requires { IsOffset offset }
    ensures { Works (cast to value.now offset) result }
{
    let value = value.value();
    if has_cast(to, value) {
        Worked::of(cast(alloc, to, value, offset))
    } else {
        Worked::Without
    }
}

/// A sign between what is held and a value; the value alone where nothing is held.
pub(crate) fn signed(alloc: Global, sign: BinarySign, held: Option<Held>, value: Held) -> Worked
    ensures { Works (signed sign held value) result }
{
    match held {
        None => Worked::Given(value),
        Some(held) => {
            let worked = operate(alloc, sign, &held, &value);
            drop(held);
            drop(value);
            worked
        }
    }
}

/// The value that lies beyond the other under a sign; of equals the first.
pub(crate) fn beyond(alloc: Global, sign: BinarySign, held: Option<Held>, value: Held) -> Worked
    ensures { Works (beyond sign held value) result }
{
    match held {
        None => Worked::Given(value),
        Some(earlier) => later_where(operate(alloc, sign, &earlier, &value), earlier, value),
    }
}

/// The later value where a comparison holds, and else the earlier one.
fn later_where(compared: Worked, earlier: Held, later: Held) -> Worked
    ensures { (o : Outcome) → Works o compared → Works (later_if earlier later o) result }
{
    match compared {
        Worked::Given(holds) => {
            let is_later = holds.is_true();
            drop(holds);
            if is_later {
                drop(earlier);
                Worked::Given(later)
            } else {
                drop(later);
                Worked::Given(earlier)
            }
        }
        other => {
            drop(earlier);
            drop(later);
            other
        }
    }
}
