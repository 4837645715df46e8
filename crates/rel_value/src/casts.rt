ghost use Rattle.std.specs.Prelude.{◌≡◌, ◌↔◌, IsSome, IsTrue, map};
ghost use Rattle.std.specs.Char.{is_ascii_digit, to_ascii_lowercase, to_ascii_uppercase};
ghost use Rattle.std.specs.List.{AllPass};
ghost use Rattle.line_forms.specs.Numbers.{IsOffset};
ghost use Rattle.rel_value.specs.Casts.{as_boolean, as_integer, as_text, as_time, as_version, behind_minus, boolean_read, cast, integer_read, is_numeral, signed_of, without_back, without_front};
ghost use Rattle.rel_value.specs.Kinds.{cast_kind};
ghost use Rattle.rel_value.specs.Plain.{kind_of};
ghost use Rattle.rel_value.specs.Operands.{IsSound, taken};
ghost use Rattle.rel_value.specs.Outcomes.{Answers};
ghost use Rattle.rel_value.specs.Views.{shown};

use crate::limit::bounded;
use crate::operand::{Operand, stands_for};
use crate::texts::text;
use crate::time_read::time_of;
use crate::trim::trimmed;
use crate::{Cast, Value, ValueFault, Version};
use std::alloc::Global;

/// What a cast gives for a value. Times are written as a clock shows them that is `offset` minutes east of UTC, from -840 to
/// 840; they are read whatever the offset.
pub fn cast(alloc: Global, to: Cast, value: &Value, offset: i64) -> Result<Value, ValueFault>
    requires sound { IsSound (shown value.now) }
    requires offset_in { IsOffset offset }
    requires has_row { IsSome (cast_kind to (kind_of (shown value.now))) }
    ensures { Answers (cast to (shown value.now) offset) result }
{
    match to {
        Cast::Str => Ok(Value::Text(text(alloc, value, offset)?)),
        Cast::Integer => as_integer(stands_for(value)),
        Cast::Version => as_version(stands_for(value)),
        Cast::Boolean => as_boolean(stands_for(value)),
        Cast::Time => as_time(alloc, stands_for(value)),
        Cast::Lowercase => as_lowercase(alloc, stands_for(value)),
        Cast::Uppercase => as_uppercase(alloc, stands_for(value)),
        Cast::Trimmed => as_trimmed(alloc, stands_for(value)),
    }
}

/// Where no row has this operand nothing is promised, here and below.
fn as_integer(operand: Operand<'_>) -> Result<Value, ValueFault>
    ensures { Answers (as_integer (taken operand.entry)) result }
{
    match operand {
        Operand::Integer(number) => Ok(Value::Integer(number)),
        Operand::Text(text) => read_integer(text),
        _ => Err(ValueFault::Absent),
    }
}

/// A number of an optional `-` and one digit or more.
fn read_integer(text: &str) -> Result<Value, ValueFault>
    ensures { Answers (integer_read (signed_of text.now)) result }
{
    if !is_numeral(behind_minus(text.as_bytes())) {
        return Err(ValueFault::Absent);
    }
    match text.parse::<i64>() {
        Ok(number) => Ok(Value::Integer(number)),
        Err(_) => Err(ValueFault::Absent),
    }
}

fn behind_minus(text: &[u8]) -> &[u8]
    ensures { result.now ≡ behind_minus text.now }
{
    match text {
        [first, rest @ ..] if *first == b'-' => rest,
        all => all,
    }
}

fn is_numeral(text: &[u8]) -> bool
    ensures { result ≡ is_numeral text.now }
{
    !text.is_empty() && are_digits(text)
}

fn are_digits(text: &[u8]) -> bool
    ensures { IsTrue result ↔ AllPass is_ascii_digit text.now }
{
    text.iter().all(|byte| byte.is_ascii_digit())
}

fn as_version(operand: Operand<'_>) -> Result<Value, ValueFault>
    ensures { Answers (as_version (taken operand.entry)) result }
{
    match operand {
        Operand::Version(version) => Ok(Value::Version(version.copy())),
        Operand::Text(text) => match Version::of_str(text) {
            Some(version) => Ok(Value::Version(version)),
            None => Err(ValueFault::Absent),
        },
        _ => Err(ValueFault::Absent),
    }
}

fn as_boolean(operand: Operand<'_>) -> Result<Value, ValueFault>
    ensures { Answers (as_boolean (taken operand.entry)) result }
{
    match operand {
        Operand::Text(text) => read_boolean(text),
        _ => Err(ValueFault::Absent),
    }
}

fn read_boolean(text: &str) -> Result<Value, ValueFault>
    ensures { Answers (boolean_read (map to_ascii_lowercase text.now)) result }
{
    if text.eq_ignore_ascii_case("true") {
        Ok(Value::Boolean(true))
    } else if text.eq_ignore_ascii_case("false") {
        Ok(Value::Boolean(false))
    } else {
        Err(ValueFault::Absent)
    }
}

fn as_time(alloc: Global, operand: Operand<'_>) -> Result<Value, ValueFault>
    ensures { Answers (as_time (taken operand.entry)) result }
{
    match operand {
        Operand::Text(text) => match time_of(alloc, text)? {
            Some(moment) => Ok(Value::Time(moment)),
            None => Err(ValueFault::Absent),
        },
        _ => Err(ValueFault::Absent),
    }
}

fn as_lowercase(alloc: Global, operand: Operand<'_>) -> Result<Value, ValueFault>
    ensures { Answers (as_text (map to_ascii_lowercase) (taken operand.entry)) result }
{
    match operand {
        Operand::Text(text) => {
            let mut changed = String::from_str(alloc, text)?;
            changed.make_ascii_lowercase();
            bounded(alloc, changed.as_str(), "")
        }
        _ => Err(ValueFault::Absent),
    }
}

fn as_uppercase(alloc: Global, operand: Operand<'_>) -> Result<Value, ValueFault>
    ensures { Answers (as_text (map to_ascii_uppercase) (taken operand.entry)) result }
{
    match operand {
        Operand::Text(text) => {
            let mut changed = String::from_str(alloc, text)?;
            changed.make_ascii_uppercase();
            bounded(alloc, changed.as_str(), "")
        }
        _ => Err(ValueFault::Absent),
    }
}

fn as_trimmed(alloc: Global, operand: Operand<'_>) -> Result<Value, ValueFault>
    ensures { Answers (as_text (λ t. without_back (without_front t)) (taken operand.entry)) result }
{
    match operand {
        Operand::Text(text) => bounded(alloc, trimmed(text), ""),
        _ => Err(ValueFault::Absent),
    }
}
