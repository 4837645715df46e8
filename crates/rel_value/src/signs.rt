ghost use Rattle.std.specs.Prelude.{◌≢◌, ◌&&◌, ◌||◌, IfErr, IsSome};
ghost use Rattle.rel_value.specs.declared.fault.ValueFault.TheVariants.{Memory};
ghost use Rattle.rel_value.specs.Kinds.{binary_kind, negated_kind, sort_of};
ghost use Rattle.rel_value.specs.Plain.{kind_of};
ghost use Rattle.rel_value.specs.Operands.{IsSound, stance, taken};
ghost use Rattle.rel_value.specs.Outcomes.{Answers};
ghost use Rattle.rel_value.specs.Signs.{combined, joined, negated, op, related};
ghost use Rattle.rel_value.specs.Views.{shown};

use crate::arithmetic::{difference, opposite, product, quotient, remainder, sum};
use crate::compare::{compare, judge};
use crate::limit::bounded;
use crate::operand::{Operand, stands_for};
use crate::relation::holds;
use crate::{Value, ValueFault};
use rel_lexer::BinarySign;
use std::alloc::Global;

/// What a sign gives for two values. `|` has no row here.
pub fn binary(
    alloc: Global,
    sign: BinarySign,
    left: &Value,
    right: &Value,
) -> Result<Value, ValueFault>
    requires sound_left { IsSound (shown left.now) }
    requires sound_right { IsSound (shown right.now) }
    requires has_row { IsSome (binary_kind sign (kind_of (shown left.now)) (kind_of (shown right.now))) }
    ensures { Answers (op sign (shown left.now) (shown right.now)) result }
{
    let left = stands_for(left);
    let right = stands_for(right);
    match sign {
        BinarySign::Plus => sum(left, right),
        BinarySign::Minus => difference(left, right),
        BinarySign::Times => product(left, right),
        BinarySign::Over => quotient(left, right),
        BinarySign::Mod => remainder(left, right),
        BinarySign::Join => join(alloc, left, right),
        BinarySign::And => both(left, right),
        BinarySign::Or => either(left, right),
        BinarySign::Bar => Err(ValueFault::Absent),
        BinarySign::Equal
        | BinarySign::NotEqual
        | BinarySign::Less
        | BinarySign::LessOrEqual
        | BinarySign::Greater
        | BinarySign::GreaterOrEqual
        | BinarySign::Is
        | BinarySign::IsNot => judge(sign, compare(left, right)),
        _ => relate(sign, left, right),
    }
}

/// `-` before one value. It takes no memory.
pub fn negate(value: &Value) -> Result<Value, ValueFault>
    requires sound { IsSound (shown value.now) }
    requires has_row { IsSome (negated_kind (sort_of (kind_of (shown value.now)))) }
    ensures row { Answers (negated (stance (shown value.now))) result }
    ensures takes_no_memory { IfErr result (λ fault. fault ≢ Memory) }
{
    opposite(stands_for(value))
}

/// Where no row has these operands nothing is promised, here and below.
fn join(alloc: Global, left: Operand<'_>, right: Operand<'_>) -> Result<Value, ValueFault>
    ensures { Answers (joined (taken left.entry) (taken right.entry)) result }
{
    match (left, right) {
        (Operand::Text(a), Operand::Text(b)) => bounded(alloc, a, b),
        _ => Err(ValueFault::Absent),
    }
}

fn both(left: Operand<'_>, right: Operand<'_>) -> Result<Value, ValueFault>
    ensures { Answers (combined (λ a b. a && b) (taken left.entry) (taken right.entry)) result }
{
    match (left, right) {
        (Operand::Boolean(a), Operand::Boolean(b)) => Ok(Value::Boolean(a && b)),
        _ => Err(ValueFault::Absent),
    }
}

fn either(left: Operand<'_>, right: Operand<'_>) -> Result<Value, ValueFault>
    ensures { Answers (combined (λ a b. a || b) (taken left.entry) (taken right.entry)) result }
{
    match (left, right) {
        (Operand::Boolean(a), Operand::Boolean(b)) => Ok(Value::Boolean(a || b)),
        _ => Err(ValueFault::Absent),
    }
}

fn relate(sign: BinarySign, left: Operand<'_>, right: Operand<'_>) -> Result<Value, ValueFault>
    ensures { Answers (related sign (taken left.entry) (taken right.entry)) result }
{
    match (left, right) {
        (Operand::Text(a), Operand::Text(b)) => Ok(Value::Boolean(holds(sign, a, b))),
        _ => Err(ValueFault::Absent),
    }
}
