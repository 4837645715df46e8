ghost use Rattle.std.specs.Prelude.{◌≡◌};
ghost use Rattle.rel_value.specs.Operands.{taken};
ghost use Rattle.rel_value.specs.Outcomes.{Answers};
ghost use Rattle.rel_value.specs.Signs.{compared, judged, passes, sameness};

use crate::operand::Operand;
use crate::{Value, ValueFault, Version};
use rel_lexer::BinarySign;
use std::cmp::Ordering;

/// How two operands compare.
#[derive(Clone, Copy)]
pub(crate) enum Comparison {
    Ordered(Ordering),
    /// Whether two booleans are the same. They have no order.
    Same(bool),
    /// The text beside a version is none.
    Malformed,
    /// No sign compares such operands.
    Unrelated,
}

/// Texts compare by their bytes, versions number by number; a text beside a version is cast.
pub(crate) fn compare(left: Operand<'_>, right: Operand<'_>) -> Comparison
    ensures { result ≡ compared (taken left.entry) (taken right.entry) }
{
    match (left, right) {
        (Operand::Integer(a), Operand::Integer(b)) => Comparison::Ordered(a.cmp(&b)),
        (Operand::Text(a), Operand::Text(b)) => Comparison::Ordered(a.cmp(&b)),
        (Operand::Time(a), Operand::Time(b)) => Comparison::Ordered(a.cmp(&b)),
        (Operand::Interval(a), Operand::Interval(b)) => Comparison::Ordered(a.cmp(&b)),
        (Operand::Version(a), Operand::Version(b)) => Comparison::Ordered(a.order(b)),
        (Operand::Version(a), Operand::Text(b)) => match Version::of_str(b) {
            Some(b) => Comparison::Ordered(a.order(&b)),
            None => Comparison::Malformed,
        },
        (Operand::Text(a), Operand::Version(b)) => match Version::of_str(a) {
            Some(a) => Comparison::Ordered(a.order(b)),
            None => Comparison::Malformed,
        },
        (Operand::Boolean(a), Operand::Boolean(b)) => Comparison::Same(a == b),
        _ => Comparison::Unrelated,
    }
}

/// What a comparing sign gives. Where it has no row nothing is promised.
pub(crate) fn judge(sign: BinarySign, comparison: Comparison) -> Result<Value, ValueFault>
    ensures { Answers (judged sign comparison) result }
{
    match comparison {
        Comparison::Ordered(order) => Ok(Value::Boolean(passes(sign, order))),
        Comparison::Same(same) => sameness(sign, same),
        Comparison::Malformed => Err(ValueFault::Absent),
        Comparison::Unrelated => Err(ValueFault::Absent),
    }
}

fn sameness(sign: BinarySign, same: bool) -> Result<Value, ValueFault>
    ensures { Answers (sameness sign same) result }
{
    match sign {
        BinarySign::Equal | BinarySign::Is => Ok(Value::Boolean(same)),
        BinarySign::NotEqual | BinarySign::IsNot => Ok(Value::Boolean(!same)),
        _ => Err(ValueFault::Absent),
    }
}

fn passes(sign: BinarySign, order: Ordering) -> bool
    ensures { result ≡ passes sign order }
{
    match sign {
        BinarySign::Less => order.is_lt(),
        BinarySign::LessOrEqual => order.is_le(),
        BinarySign::Greater => order.is_gt(),
        BinarySign::GreaterOrEqual => order.is_ge(),
        BinarySign::Equal | BinarySign::Is => order.is_eq(),
        BinarySign::NotEqual | BinarySign::IsNot => order.is_ne(),
        _ => false,
    }
}
