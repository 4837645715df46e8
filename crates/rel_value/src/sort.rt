ghost use Rattle.std.specs.Prelude.{◌≡◌};
ghost use Rattle.rel_value.specs.Kinds.{sort_of};
ghost use Rattle.rel_value.specs.Plain.{kind_of};
ghost use Rattle.rel_value.specs.RowSorts.{sorted};
ghost use Rattle.rel_value.specs.Views.{shown, shown_kind};

use crate::{Kind, Value};

/// What signs and most casts tell apart of a value's kind. A part counts as a text.
#[derive(Clone, Copy)]
pub(crate) enum ValueSort {
    Boolean,
    Integer,
    Text,
    Time,
    Interval,
    Version,
    Other,
}

/// The sort of a value's kind.
pub(crate) fn sort(value: &Value) -> ValueSort
    ensures { sorted result ≡ sort_of (kind_of (shown value.now)) }
{
    match value {
        Value::Boolean(_) => ValueSort::Boolean,
        Value::Integer(_) => ValueSort::Integer,
        Value::Text(_) => ValueSort::Text,
        Value::Part { .. } => ValueSort::Text,
        Value::Time(_) => ValueSort::Time,
        Value::Interval(_) => ValueSort::Interval,
        Value::Version(_) => ValueSort::Version,
        _ => ValueSort::Other,
    }
}

/// The sort of a kind.
pub(crate) fn kind_sort(kind: &Kind) -> ValueSort
    ensures { sorted result ≡ sort_of (shown_kind kind.now) }
{
    match kind {
        Kind::Boolean => ValueSort::Boolean,
        Kind::Integer => ValueSort::Integer,
        Kind::Text => ValueSort::Text,
        Kind::Part => ValueSort::Text,
        Kind::Time => ValueSort::Time,
        Kind::Interval => ValueSort::Interval,
        Kind::Version => ValueSort::Version,
        _ => ValueSort::Other,
    }
}
