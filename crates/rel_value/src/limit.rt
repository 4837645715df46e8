ghost use Rattle.std.specs.Prelude.{◌++◌};
ghost use Rattle.rel_value.specs.Outcomes.{Answers, bounded};

use crate::{Value, ValueFault};
use rel_lexer::Text;
use std::alloc::Global;

/// The most bytes of a text.
pub(crate) const LONGEST: usize = 1_048_576;

/// The text of two pieces, within the limit.
pub(crate) fn bounded(alloc: Global, first: &str, second: &str) -> Result<Value, ValueFault>
    ensures { Answers (bounded (first.now ++ second.now)) result }
{
    if first.len() > LONGEST || second.len() > LONGEST - first.len() {
        return Err(ValueFault::TextTooLong);
    }
    let mut text = Text::from_str(alloc, first)?;
    text.push(second)?;
    Ok(Value::Text(text))
}
