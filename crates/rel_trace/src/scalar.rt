ghost use Rattle.std.specs.Prelude.{◌≡◌, ℤ, FitsSigned, IfSome};
ghost use Rattle.std.specs.Int.{w64};
ghost use Rattle.std.specs.Option.{SomeIff};
ghost use Rattle.rel_value.specs.Operands.{number, stance};
ghost use Rattle.rel_value.specs.Outcomes.{whole};
ghost use Rattle.rel_value.specs.Plain.{boolean, integer};
ghost use Rattle.rel_value.specs.Signs.{negated, op, quotient, remainder};
ghost use Rattle.rel_trace.specs.Ones.{inverted};
ghost use Rattle.rel_trace.specs.Scalars.{plain, scalar_given, scalar_of};

use crate::Held;
use rel_lexer::BinarySign;
use rel_value::Value;

/// A value that fits into a register, so that copying and dropping it cost nothing.
#[derive(Clone, Copy)]
pub enum Scalar {
    Boolean(bool),
    Integer(i64),
}

impl Scalar {
    /// The value as a scalar, where it is one.
    pub fn of(value: &Held) -> Option<Scalar>
        ensures exact { result ≡ scalar_of value.now }
        ensures same { IfSome result (λ scalar. plain scalar ≡ value.now) }
    {
        match value.value() {
            Value::Boolean(truth) => Some(Scalar::Boolean(*truth)),
            Value::Integer(number) => Some(Scalar::Integer(*number)),
            _ => None,
        }
    }

    /// The value that it is.
    pub fn held(self) -> Held
        ensures { result ≡ plain self }
    {
        match self {
            Scalar::Boolean(truth) => Held::boolean(truth),
            Scalar::Integer(number) => Held::integer(number),
        }
    }

    /// What a sign gives for it and a right one, where that is a scalar.
    pub(crate) fn operate(self, sign: BinarySign, right: Scalar) -> Option<Scalar>
        ensures { result ≡ scalar_given (op sign (plain self) (plain right)) }
    {
        match (self, right) {
            (Scalar::Integer(a), Scalar::Integer(b)) => of_integers(sign, a, b),
            (Scalar::Boolean(a), Scalar::Boolean(b)) => of_booleans(sign, a, b),
            _ => None,
        }
    }

    /// What `-` before it gives, where that is a scalar.
    pub(crate) fn opposite(self) -> Option<Scalar>
        ensures { result ≡ scalar_given (negated (stance (plain self))) }
    {
        match self {
            Scalar::Integer(number) => in_range(number.checked_neg()),
            Scalar::Boolean(_) => None,
        }
    }

    /// What `not` before it gives, where that is a scalar.
    pub(crate) fn inverse(self) -> Option<Scalar>
        ensures { result ≡ scalar_given (inverted (plain self)) }
    {
        match self {
            Scalar::Boolean(truth) => Some(Scalar::Boolean(!truth)),
            Scalar::Integer(_) => None,
        }
    }
}

/// What a sign gives for two integers: none where that is out of range, a division by zero or without a row.
fn of_integers(sign: BinarySign, a: i64, b: i64) -> Option<Scalar>
    ensures { result ≡ scalar_given (op sign (integer a) (integer b)) }
{
    match sign {
        BinarySign::Plus => in_range(a.checked_add(b)),
        BinarySign::Minus => in_range(a.checked_sub(b)),
        BinarySign::Times => in_range(a.checked_mul(b)),
        BinarySign::Over => quotient(a, b),
        BinarySign::Mod => remainder(a, b),
        BinarySign::Equal | BinarySign::Is => Some(Scalar::Boolean(a == b)),
        BinarySign::NotEqual | BinarySign::IsNot => Some(Scalar::Boolean(a != b)),
        BinarySign::Less => Some(Scalar::Boolean(a < b)),
        BinarySign::LessOrEqual => Some(Scalar::Boolean(a <= b)),
        BinarySign::Greater => Some(Scalar::Boolean(a > b)),
        BinarySign::GreaterOrEqual => Some(Scalar::Boolean(a >= b)),
        _ => None,
    }
}

/// What a sign gives for two booleans, which have no order.
fn of_booleans(sign: BinarySign, a: bool, b: bool) -> Option<Scalar>
    ensures { result ≡ scalar_given (op sign (boolean a) (boolean b)) }
{
    match sign {
        BinarySign::And => Some(Scalar::Boolean(a && b)),
        BinarySign::Or => Some(Scalar::Boolean(a || b)),
        BinarySign::Equal | BinarySign::Is => Some(Scalar::Boolean(a == b)),
        BinarySign::NotEqual | BinarySign::IsNot => Some(Scalar::Boolean(a != b)),
        _ => None,
    }
}

fn in_range(number: Option<i64>) -> Option<Scalar>
    ensures { (z : ℤ) → SomeIff number (FitsSigned w64 z) z → result ≡ scalar_given (whole z) }
{
    match number {
        Some(number) => Some(Scalar::Integer(number)),
        None => None,
    }
}

/// Toward zero.
fn quotient(a: i64, b: i64) -> Option<Scalar>
    ensures { result ≡ scalar_given (quotient (number a) (number b)) }
{
    match b {
        0 => None,
        _ => in_range(a.checked_div(b)),
    }
}

/// With the sign of the left one.
fn remainder(a: i64, b: i64) -> Option<Scalar>
    ensures { result ≡ scalar_given (remainder (number a) (number b)) }
{
    match b {
        0 => None,
        // no quotient of the least integer by -1 fits, but its remainder does
        -1 => Some(Scalar::Integer(0)),
        _ => Some(Scalar::Integer(a % b)),
    }
}
