use crate::database::Value;
use crate::stop::Stop;
use desk_base::Bytes;
use line_forms::write_digest;
use rel_lexer::Text;
use std::alloc::Global;

/// A number of 32 bits, as it stands in a column.
pub(crate) fn narrow(number: i64) -> Result<u32, Stop> {
    match u32::try_from(number) {
        Ok(number) => Ok(number),
        Err(_) => Err(Stop::OtherForm),
    }
}

/// A number as it is put into a column.
pub(crate) fn number(number: u64) -> Result<Value<'static>, Stop> {
    match i64::try_from(number) {
        Ok(number) => Ok(Value::Number(number)),
        Err(_) => Err(Stop::OtherForm),
    }
}

/// A number or none, as it is put into a column.
pub(crate) fn number_or_none(number: Option<i64>) -> Value<'static> {
    match number {
        Some(number) => Value::Number(number),
        None => Value::Null,
    }
}

/// A text as it is put into a column.
pub(crate) fn text(text: &Text) -> Value<'_> {
    Value::Text(text.as_str().as_bytes())
}

/// The digits of a digest.
pub(crate) fn digits(alloc: Global, digest: &[u8; 32]) -> Result<Bytes, Stop> {
    let mut digits = Bytes::new(alloc);
    write_digest(digest, &mut digits)?;
    Ok(digits)
}
