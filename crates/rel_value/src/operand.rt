ghost use Rattle.std.specs.Prelude.{◌≡◌};
ghost use Rattle.rel_value.specs.Operands.{IsSound, stance, taken};
ghost use Rattle.rel_value.specs.Views.{shown};

use crate::{Value, Version};

/// What a value stands for beside a sign or before a cast.
#[derive(Clone, Copy)]
pub(crate) enum Operand<'a> {
    Boolean(bool),
    Integer(i64),
    Text(&'a str),
    Time(i64),
    Interval(i64),
    Version(&'a Version),
    Other,
}

/// A part stands for its own bytes.
pub(crate) fn stands_for(value: &Value) -> Operand<'_>
    requires { IsSound (shown value.now) }
    ensures { taken result ≡ stance (shown value.now) }
{
    match value {
        Value::Boolean(truth) => Operand::Boolean(*truth),
        Value::Integer(number) => Operand::Integer(*number),
        Value::Text(text) => Operand::Text(text.as_str()),
        Value::Part { whole, from, to } => {
            Operand::Text(&whole.as_str()[*from as usize..*to as usize])
        }
        Value::Time(moment) => Operand::Time(*moment),
        Value::Interval(seconds) => Operand::Interval(*seconds),
        Value::Version(version) => Operand::Version(version),
        _ => Operand::Other,
    }
}
