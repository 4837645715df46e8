ghost use Rattle.std.specs.Prelude.{◌≢◌, ℤ, FitsSigned, IfErr, int_div, int_rem};
ghost use Rattle.std.specs.Int.{w64};
ghost use Rattle.std.specs.Option.{SomeIff};
ghost use Rattle.rel_value.specs.declared.fault.ValueFault.TheVariants.{Memory};
ghost use Rattle.rel_value.specs.Operands.{taken};
ghost use Rattle.rel_value.specs.Outcomes.{Answers, moment, span, whole};
ghost use Rattle.rel_value.specs.Signs.{difference, divided, negated, product, quotient, remainder, sum};

use crate::operand::Operand;
use crate::{Value, ValueFault};
use desk_base::LAST_MOMENT;

fn integer(number: Option<i64>) -> Result<Value, ValueFault>
    ensures value { (z : ℤ) → SomeIff number (FitsSigned w64 z) z → Answers (whole z) result }
    ensures takes_no_memory { IfErr result (λ fault. fault ≢ Memory) }
{
    match number {
        Some(number) => Ok(Value::Integer(number)),
        None => Err(ValueFault::OutOfRange),
    }
}

fn interval(seconds: Option<i64>) -> Result<Value, ValueFault>
    ensures value { (z : ℤ) → SomeIff seconds (FitsSigned w64 z) z → Answers (span z) result }
    ensures takes_no_memory { IfErr result (λ fault. fault ≢ Memory) }
{
    match seconds {
        Some(seconds) => Ok(Value::Interval(seconds)),
        None => Err(ValueFault::OutOfRange),
    }
}

fn time(seconds: Option<i64>) -> Result<Value, ValueFault>
    ensures { (z : ℤ) → SomeIff seconds (FitsSigned w64 z) z → Answers (moment z) result }
{
    match seconds {
        Some(moment) if 0 <= moment && moment <= LAST_MOMENT => Ok(Value::Time(moment)),
        _ => Err(ValueFault::OutOfRange),
    }
}

/// Where no row has these operands nothing is promised, here and below.
pub(crate) fn sum(left: Operand<'_>, right: Operand<'_>) -> Result<Value, ValueFault>
    ensures { Answers (sum (taken left.entry) (taken right.entry)) result }
{
    match (left, right) {
        (Operand::Integer(a), Operand::Integer(b)) => integer(a.checked_add(b)),
        (Operand::Interval(a), Operand::Interval(b)) => interval(a.checked_add(b)),
        (Operand::Time(a), Operand::Interval(b)) => time(a.checked_add(b)),
        (Operand::Interval(a), Operand::Time(b)) => time(a.checked_add(b)),
        _ => Err(ValueFault::Absent),
    }
}

pub(crate) fn difference(left: Operand<'_>, right: Operand<'_>) -> Result<Value, ValueFault>
    ensures { Answers (difference (taken left.entry) (taken right.entry)) result }
{
    match (left, right) {
        (Operand::Integer(a), Operand::Integer(b)) => integer(a.checked_sub(b)),
        (Operand::Interval(a), Operand::Interval(b)) => interval(a.checked_sub(b)),
        (Operand::Time(a), Operand::Interval(b)) => time(a.checked_sub(b)),
        (Operand::Time(a), Operand::Time(b)) => interval(a.checked_sub(b)),
        _ => Err(ValueFault::Absent),
    }
}

pub(crate) fn product(left: Operand<'_>, right: Operand<'_>) -> Result<Value, ValueFault>
    ensures { Answers (product (taken left.entry) (taken right.entry)) result }
{
    match (left, right) {
        (Operand::Integer(a), Operand::Integer(b)) => integer(a.checked_mul(b)),
        (Operand::Interval(a), Operand::Integer(b)) => interval(a.checked_mul(b)),
        (Operand::Integer(a), Operand::Interval(b)) => interval(a.checked_mul(b)),
        _ => Err(ValueFault::Absent),
    }
}

fn whole_quotient(left: i64, right: i64) -> Result<Value, ValueFault>
    ensures { Answers (divided right (whole (int_div left right))) result }
{
    if right == 0 {
        return Err(ValueFault::DivideByZero);
    }
    integer(left.checked_div(right))
}

fn interval_quotient(left: i64, right: i64) -> Result<Value, ValueFault>
    ensures { Answers (divided right (span (int_div left right))) result }
{
    if right == 0 {
        return Err(ValueFault::DivideByZero);
    }
    interval(left.checked_div(right))
}

/// Toward zero.
pub(crate) fn quotient(left: Operand<'_>, right: Operand<'_>) -> Result<Value, ValueFault>
    ensures { Answers (quotient (taken left.entry) (taken right.entry)) result }
{
    match (left, right) {
        (Operand::Integer(a), Operand::Integer(b)) => whole_quotient(a, b),
        (Operand::Interval(a), Operand::Integer(b)) => interval_quotient(a, b),
        (Operand::Interval(a), Operand::Interval(b)) => whole_quotient(a, b),
        _ => Err(ValueFault::Absent),
    }
}

fn whole_remainder(left: i64, right: i64) -> Result<Value, ValueFault>
    ensures { Answers (divided right (whole (int_rem left right))) result }
{
    if right == 0 {
        return Err(ValueFault::DivideByZero);
    }
    // no quotient of the least integer by -1 fits, but its remainder does
    integer(Some(if right == -1 { 0 } else { left % right }))
}

/// With the sign of the left.
pub(crate) fn remainder(left: Operand<'_>, right: Operand<'_>) -> Result<Value, ValueFault>
    ensures { Answers (remainder (taken left.entry) (taken right.entry)) result }
{
    match (left, right) {
        (Operand::Integer(a), Operand::Integer(b)) => whole_remainder(a, b),
        _ => Err(ValueFault::Absent),
    }
}

pub(crate) fn opposite(operand: Operand<'_>) -> Result<Value, ValueFault>
    ensures row { Answers (negated (taken operand.entry)) result }
    ensures takes_no_memory { IfErr result (λ fault. fault ≢ Memory) }
{
    match operand {
        Operand::Integer(number) => integer(number.checked_neg()),
        Operand::Interval(seconds) => interval(seconds.checked_neg()),
        _ => Err(ValueFault::Absent),
    }
}
