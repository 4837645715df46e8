// Which signs and casts have a row for values or kinds, and the kind that the row gives.
ghost use Rattle.std.specs.Prelude.{◌≡◌, is_some, option_map};
ghost use Rattle.rel_value.specs.Kinds.{binary_kind, cast_kind, negated_kind, sort_of};
ghost use Rattle.rel_value.specs.Plain.{kind_of};
ghost use Rattle.rel_value.specs.Views.{shown, shown_kind};

use crate::row_kinds::{cast_row, negated, row_kind};
use crate::sort::{kind_sort, sort};
use crate::{Cast, Kind, Value};
use rel_lexer::BinarySign;

/// The kind that a sign gives for two kinds, if it has a row for them. `|` has none here.
pub fn binary_kind(sign: BinarySign, left: &Kind, right: &Kind) -> Option<Kind>
    ensures { option_map shown_kind result ≡ binary_kind sign (shown_kind left.now) (shown_kind right.now) }
{
    row_kind(sign, kind_sort(left), kind_sort(right))
}

/// The kind that `-` before a kind gives, if it has a row for it.
pub fn negated_kind(kind: &Kind) -> Option<Kind>
    ensures { option_map shown_kind result ≡ negated_kind (sort_of (shown_kind kind.now)) }
{
    negated(kind_sort(kind))
}

/// The kind that a cast gives, if it has a row for the kind.
pub fn cast_kind(to: Cast, from: &Kind) -> Option<Kind>
    ensures { option_map shown_kind result ≡ cast_kind to (shown_kind from.now) }
{
    cast_row(to, kind_sort(from))
}

/// Whether a sign has a row for two values. `|` has none.
pub fn has_row(sign: BinarySign, left: &Value, right: &Value) -> bool
    ensures { result ≡ is_some (binary_kind sign (kind_of (shown left.now)) (kind_of (shown right.now))) }
{
    row_kind(sign, sort(left), sort(right)).is_some()
}

/// Whether `-` before a value has a row.
pub fn has_negation(value: &Value) -> bool
    ensures { result ≡ is_some (negated_kind (sort_of (kind_of (shown value.now)))) }
{
    negated(sort(value)).is_some()
}

/// Whether a cast has a row for a value.
pub fn has_cast(to: Cast, value: &Value) -> bool
    ensures { result ≡ is_some (cast_kind to (kind_of (shown value.now))) }
{
    cast_row(to, sort(value)).is_some()
}
