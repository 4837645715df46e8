// The kinds that signs and casts give.
ghost use Rattle.std.specs.Prelude.{◌≡◌, option_map};
ghost use Rattle.rel_value.specs.Kinds.{cast_kind, combined_kind, difference_kind, equality_kind, joined_kind, negated_kind, order_kind, product_kind, quotient_kind, relation_kind, remainder_kind, row_kind, sort_of, sum_kind};
ghost use Rattle.rel_value.specs.Plain.{PlainKind};
ghost use Rattle.rel_value.specs.RowSorts.{sorted};
ghost use Rattle.rel_value.specs.Views.{shown_kind};

use crate::sort::ValueSort;
use crate::{Cast, Kind};
use rel_lexer::BinarySign;

/// The kind that a sign gives for two sorts, if it has a row for them.
pub(crate) fn row_kind(sign: BinarySign, left: ValueSort, right: ValueSort) -> Option<Kind>
    ensures { option_map shown_kind result ≡ row_kind sign (sorted left) (sorted right) }
{
    match sign {
        BinarySign::Plus => sum(left, right),
        BinarySign::Minus => difference(left, right),
        BinarySign::Times => product(left, right),
        BinarySign::Over => quotient(left, right),
        BinarySign::Mod => remainder(left, right),
        BinarySign::Join => joined(left, right),
        BinarySign::And | BinarySign::Or => combined(left, right),
        BinarySign::Bar => None,
        BinarySign::Equal | BinarySign::NotEqual | BinarySign::Is | BinarySign::IsNot => {
            equality(left, right)
        }
        BinarySign::Less
        | BinarySign::LessOrEqual
        | BinarySign::Greater
        | BinarySign::GreaterOrEqual => order(left, right),
        _ => relation(left, right),
    }
}

fn sum(left: ValueSort, right: ValueSort) -> Option<Kind>
    ensures { option_map shown_kind result ≡ sum_kind (sorted left) (sorted right) }
{
    match (left, right) {
        (ValueSort::Integer, ValueSort::Integer) => Some(Kind::Integer),
        (ValueSort::Interval, ValueSort::Interval) => Some(Kind::Interval),
        (ValueSort::Time, ValueSort::Interval) => Some(Kind::Time),
        (ValueSort::Interval, ValueSort::Time) => Some(Kind::Time),
        _ => None,
    }
}

fn difference(left: ValueSort, right: ValueSort) -> Option<Kind>
    ensures { option_map shown_kind result ≡ difference_kind (sorted left) (sorted right) }
{
    match (left, right) {
        (ValueSort::Integer, ValueSort::Integer) => Some(Kind::Integer),
        (ValueSort::Interval, ValueSort::Interval) => Some(Kind::Interval),
        (ValueSort::Time, ValueSort::Interval) => Some(Kind::Time),
        (ValueSort::Time, ValueSort::Time) => Some(Kind::Interval),
        _ => None,
    }
}

fn product(left: ValueSort, right: ValueSort) -> Option<Kind>
    ensures { option_map shown_kind result ≡ product_kind (sorted left) (sorted right) }
{
    match (left, right) {
        (ValueSort::Integer, ValueSort::Integer) => Some(Kind::Integer),
        (ValueSort::Interval, ValueSort::Integer) => Some(Kind::Interval),
        (ValueSort::Integer, ValueSort::Interval) => Some(Kind::Interval),
        _ => None,
    }
}

fn quotient(left: ValueSort, right: ValueSort) -> Option<Kind>
    ensures { option_map shown_kind result ≡ quotient_kind (sorted left) (sorted right) }
{
    match (left, right) {
        (ValueSort::Integer, ValueSort::Integer) => Some(Kind::Integer),
        (ValueSort::Interval, ValueSort::Integer) => Some(Kind::Interval),
        (ValueSort::Interval, ValueSort::Interval) => Some(Kind::Integer),
        _ => None,
    }
}

fn remainder(left: ValueSort, right: ValueSort) -> Option<Kind>
    ensures { option_map shown_kind result ≡ remainder_kind (sorted left) (sorted right) }
{
    match (left, right) {
        (ValueSort::Integer, ValueSort::Integer) => Some(Kind::Integer),
        _ => None,
    }
}

fn joined(left: ValueSort, right: ValueSort) -> Option<Kind>
    ensures { option_map shown_kind result ≡ joined_kind (sorted left) (sorted right) }
{
    match (left, right) {
        (ValueSort::Text, ValueSort::Text) => Some(Kind::Text),
        _ => None,
    }
}

/// `<`, `<=`, `>` and `>=`.
fn order(left: ValueSort, right: ValueSort) -> Option<Kind>
    ensures { option_map shown_kind result ≡ order_kind (sorted left) (sorted right) }
{
    match (left, right) {
        (ValueSort::Integer, ValueSort::Integer) => Some(Kind::Boolean),
        (ValueSort::Text, ValueSort::Text) => Some(Kind::Boolean),
        (ValueSort::Time, ValueSort::Time) => Some(Kind::Boolean),
        (ValueSort::Interval, ValueSort::Interval) => Some(Kind::Boolean),
        (ValueSort::Version, ValueSort::Version) => Some(Kind::Boolean),
        (ValueSort::Version, ValueSort::Text) => Some(Kind::Boolean),
        (ValueSort::Text, ValueSort::Version) => Some(Kind::Boolean),
        _ => None,
    }
}

/// `=`, `!=`, `is` and `is not`.
fn equality(left: ValueSort, right: ValueSort) -> Option<Kind>
    ensures { option_map shown_kind result ≡ equality_kind (sorted left) (sorted right) }
{
    match (left, right) {
        (ValueSort::Boolean, ValueSort::Boolean) => Some(Kind::Boolean),
        _ => order(left, right),
    }
}

fn relation(left: ValueSort, right: ValueSort) -> Option<Kind>
    ensures { option_map shown_kind result ≡ relation_kind (sorted left) (sorted right) }
{
    match (left, right) {
        (ValueSort::Text, ValueSort::Text) => Some(Kind::Boolean),
        _ => None,
    }
}

fn combined(left: ValueSort, right: ValueSort) -> Option<Kind>
    ensures { option_map shown_kind result ≡ combined_kind (sorted left) (sorted right) }
{
    match (left, right) {
        (ValueSort::Boolean, ValueSort::Boolean) => Some(Kind::Boolean),
        _ => None,
    }
}

/// The kind that `-` before an operand gives, if it has a row for it.
pub(crate) fn negated(right: ValueSort) -> Option<Kind>
    ensures { option_map shown_kind result ≡ negated_kind (sorted right) }
{
    match right {
        ValueSort::Integer => Some(Kind::Integer),
        ValueSort::Interval => Some(Kind::Interval),
        _ => None,
    }
}

/// The kind that a cast gives for a sort, if it has a row for it.
pub(crate) fn cast_row(to: Cast, from: ValueSort) -> Option<Kind>
    ensures { (kind : PlainKind) → sort_of kind ≡ sorted from → option_map shown_kind result ≡ cast_kind to kind }
{
    match (to, from) {
        (Cast::Str, _) => Some(Kind::Text),
        (Cast::Integer, ValueSort::Integer) => Some(Kind::Integer),
        (Cast::Integer, ValueSort::Text) => Some(Kind::Integer),
        (Cast::Version, ValueSort::Version) => Some(Kind::Version),
        (Cast::Version, ValueSort::Text) => Some(Kind::Version),
        (Cast::Boolean, ValueSort::Text) => Some(Kind::Boolean),
        (Cast::Time, ValueSort::Text) => Some(Kind::Time),
        (Cast::Lowercase, ValueSort::Text) => Some(Kind::Text),
        (Cast::Uppercase, ValueSort::Text) => Some(Kind::Text),
        (Cast::Trimmed, ValueSort::Text) => Some(Kind::Text),
        _ => None,
    }
}
