//! Values: one call of each function that takes memory, and what no command shows.
ghost use Rattle.rel_value.specs.Operands.{IsSound};
ghost use Rattle.rel_value.specs.Views.{shown};

use rel_lexer::{BinarySign, Text};
use rel_value::*;
use std::alloc::Global;
use std::test::Fail;

/// Whether an answer is this text.
fn is_text(answer: Result<Value, ValueFault>, wanted: &str) -> bool {
    match answer {
        Ok(Value::Text(text)) => text.as_str() == wanted,
        _ => false,
    }
}

/// Whether this is the text of a value, by `text` and by `as string`.
fn is_written(alloc: Global, value: &Value, wanted: &str) -> bool
    requires { IsSound (shown value.now) }
{
    let Ok(written) = text(alloc, value, 0) else {
        return false;
    };
    written.as_str() == wanted && is_text(cast(alloc, Cast::Str, value, 0), wanted)
}

/// Whether `&` joins a part of a text to itself.
fn is_doubled(alloc: Global) -> Option<bool> {
    let part = Value::Part {
        whole: Text::from_str(alloc, "a-17b").ok()?,
        from: 1,
        to: 4,
    };
    let doubled = binary(alloc, BinarySign::Join, &part, &part);
    Some(is_text(doubled, "-17-17"))
}

#[test]
fn a_part_stands_for_its_own_bytes(rt: HostRuntime) {
    assert_eq!(rt; is_doubled(rt.alloc()), Some(true));
}

#[test]
fn a_tuple_inside_stands_in_brackets(rt: HostRuntime) -> Result<(), Fail> {
    let inner = Values::pair(rt.alloc(), Value::Integer(2), Value::Boolean(false))?;
    let mut parts = Values::pair(rt.alloc(), Value::Integer(1), Value::Tuple(inner))?;
    parts.push(Value::Client)?;
    let tuple = Value::Tuple(parts).copy()?;
    assert!(rt; is_written(rt.alloc(), &tuple, "1, ( 2, False ), client"));
    Ok(())
}

#[test]
fn kinds_are_listed(rt: HostRuntime) -> Result<(), Fail> {
    let mut kinds = Kinds::pair(rt.alloc(), Kind::Integer, Kind::Text)?;
    kinds.push(Kind::Part)?;
    let Kind::Tuple(list) = Kind::Tuple(kinds).copy()? else {
        assert!(rt; false);
        return Ok(());
    };
    assert!(rt; matches!(list.as_slice(), [Kind::Integer, Kind::Text, Kind::Part]));
    Ok(())
}

#[test]
fn a_version_keeps_its_numbers(rt: HostRuntime) -> Result<(), Fail> {
    let text = Text::from_str(rt.alloc(), "01.2.4294967295")?;
    let version = Version::parse(&text).ok_or("no version")?;
    assert_eq!(rt; version.as_slice(), [1, 2, 4_294_967_295].as_slice());
    Ok(())
}

/// Laws of the definitions, whose calls do nothing.
#[test]
fn laws_hold() {
    signs_keep_kinds();
    casts_keep_kinds();
    times_are_read_as_written();
}
