ghost use Rattle.std.specs.Prelude.{◌≡◌, map};
ghost use Rattle.rel_types.specs.Aggregates.{aggregate_rows};
ghost use Rattle.rel_types.specs.Tables.{shown_row};

use crate::row::{Asked, NOTHING, Row, TEXT, TEXT_OR_NOTHING};
use crate::scalar::Scalar;
use crate::{Aggregate, Head};

macro_rules! aggregate {
    ($aggregate:expr, $words:expr, $argument:expr, $object:expr, $gives:expr) => {
        Row {
            head: Head::Aggregate($aggregate),
            singular: $words,
            plural: None,
            argument: $argument,
            object: $object,
            gives: $gives,
        }
    };
}

static AGGREGATES: [Row; 16] = [
    aggregate!(
        Aggregate::Number,
        "number",
        NOTHING,
        Asked::Anything,
        Scalar::Integer
    ),
    aggregate!(
        Aggregate::Sum,
        "sum",
        NOTHING,
        Asked::OneOf(&[Scalar::Integer]),
        Scalar::Integer
    ),
    aggregate!(
        Aggregate::Sum,
        "sum",
        NOTHING,
        Asked::OneOf(&[Scalar::Interval]),
        Scalar::Interval
    ),
    aggregate!(
        Aggregate::Maximum,
        "maximum",
        NOTHING,
        Asked::OneOf(&[Scalar::Integer]),
        Scalar::Integer
    ),
    aggregate!(
        Aggregate::Maximum,
        "maximum",
        NOTHING,
        Asked::OneOf(&[Scalar::Interval]),
        Scalar::Interval
    ),
    aggregate!(
        Aggregate::Maximum,
        "maximum",
        NOTHING,
        Asked::OneOf(&[Scalar::Time]),
        Scalar::Time
    ),
    aggregate!(
        Aggregate::Maximum,
        "maximum",
        NOTHING,
        Asked::OneOf(&[Scalar::Version]),
        Scalar::Version
    ),
    aggregate!(Aggregate::Maximum, "maximum", NOTHING, TEXT, Scalar::Text),
    aggregate!(
        Aggregate::Minimum,
        "minimum",
        NOTHING,
        Asked::OneOf(&[Scalar::Integer]),
        Scalar::Integer
    ),
    aggregate!(
        Aggregate::Minimum,
        "minimum",
        NOTHING,
        Asked::OneOf(&[Scalar::Interval]),
        Scalar::Interval
    ),
    aggregate!(
        Aggregate::Minimum,
        "minimum",
        NOTHING,
        Asked::OneOf(&[Scalar::Time]),
        Scalar::Time
    ),
    aggregate!(
        Aggregate::Minimum,
        "minimum",
        NOTHING,
        Asked::OneOf(&[Scalar::Version]),
        Scalar::Version
    ),
    aggregate!(Aggregate::Minimum, "minimum", NOTHING, TEXT, Scalar::Text),
    aggregate!(
        Aggregate::Conjunction,
        "conjunction",
        NOTHING,
        Asked::OneOf(&[Scalar::Boolean]),
        Scalar::Boolean
    ),
    aggregate!(
        Aggregate::Disjunction,
        "disjunction",
        NOTHING,
        Asked::OneOf(&[Scalar::Boolean]),
        Scalar::Boolean
    ),
    aggregate!(
        Aggregate::Concatenation,
        "concatenation",
        TEXT_OR_NOTHING,
        TEXT,
        Scalar::Text
    ),
];

/// The aggregates: their words, what they ask of the argument and of the object, and what they give.
#[tactic(auto, unfolding(crate::specs::Aggregates::aggregate_rows))]
pub(crate) fn aggregates() -> &'static [Row]
    ensures { map shown_row result.now ≡ aggregate_rows }
{
    &AGGREGATES
}
