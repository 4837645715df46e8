ghost use Rattle.std.specs.Prelude.{◌≡◌, ◌++◌, ◌∷◌, OnOk};
ghost use Rattle.line_forms.specs.Numbers.{IsOffset};
ghost use Rattle.rel_value.specs.Operands.{AreSound, IsSound};
ghost use Rattle.rel_value.specs.Outcomes.{AnswersText, Writes};
ghost use Rattle.rel_value.specs.Texts.{enclosed, single_text, text_of, texts_of, version_text};
ghost use Rattle.rel_value.specs.Views.{shown, shown_parts};

use crate::limit::LONGEST;
use crate::spelling::{write_interval, write_number};
use crate::time_text::write_time;
use crate::{Value, ValueFault, Values, Version};
use rel_lexer::Text;
use std::alloc::{AllocError, Global};

/// The text of a value, where it has at most 1,048,576 bytes. Times are written as a clock shows them that is `offset` minutes
/// east of UTC, from -840 to 840.
pub fn text(alloc: Global, value: &Value, offset: i64) -> Result<Text, ValueFault>
    requires sound { IsSound (shown value.now) }
    requires offset_in { IsOffset offset }
    ensures { AnswersText (text_of offset (shown value.now)) result }
{
    let mut out = Text::from_str(alloc, "")?;
    write_value(value, Zone { offset }, &mut out)?;
    if out.as_str().len() > LONGEST {
        return Err(ValueFault::TextTooLong);
    }
    Ok(out)
}

/// Where the clock stands that times are written by.
#[derive(Clone, Copy)]
struct Zone {
    /// Minutes east of UTC.
    offset: i64,
}

/// Appends the text of a value.
fn write_value(value: &Value, zone: Zone, out: &mut Text) -> Result<(), ValueFault>
    requires sound { IsSound (shown value.now) }
    requires offset_in { IsOffset zone.offset }
    ensures { Writes out.old (text_of zone.offset (shown value.now)) out.new result }
{
    match value {
        Value::Tuple(parts) => write_parts(parts, zone, out),
        single => Ok(write_single(single, zone, out)?),
    }
}

/// Appends the texts of a tuple's parts, with commas between them.
#[cycle(write)]
fn write_parts(parts: &Values, zone: Zone, out: &mut Text) -> Result<(), ValueFault>
    requires sound { AreSound (shown_parts parts.now) }
    requires offset_in { IsOffset zone.offset }
    ensures { Writes out.old (texts_of zone.offset (shown_parts parts.now)) out.new result }
{
    for (i, part) in parts.items.iter().enumerate() {
        if i > 0 {
            out.push(", ")?;
        }
        write_part(part, zone, out)?;
        if out.as_str().len() > LONGEST {
            return Err(ValueFault::TextTooLong);
        }
    }
    Ok(())
}

/// Appends the text of a tuple's part, in brackets where it is a tuple.
#[cycle(write)]
fn write_part(part: &Value, zone: Zone, out: &mut Text) -> Result<(), ValueFault>
    requires sound { IsSound (shown part.now) }
    requires offset_in { IsOffset zone.offset }
    ensures { Writes out.old (enclosed (shown part.now) (text_of zone.offset (shown part.now))) out.new result }
{
    match part {
        Value::Tuple(inner) => {
            out.push("( ")?;
            write_parts(inner, zone, out)?;
            out.push(" )")?;
            Ok(())
        }
        single => Ok(write_single(single, zone, out)?),
    }
}

/// Appends the text of a value that is no tuple.
fn write_single(value: &Value, zone: Zone, out: &mut Text) -> Result<(), AllocError>
    requires sound { IsSound (shown value.now) }
    requires offset_in { IsOffset zone.offset }
    ensures { OnOk result (out.new ≡ out.old ++ single_text zone.offset (shown value.now)) }
{
    match value {
        Value::Boolean(truth) => out.push(if *truth { "True" } else { "False" }),
        Value::Integer(number) => write_number(*number, out),
        Value::Text(text) => out.push(text.as_str()),
        Value::Part { whole, from, to } => out.push(&whole.as_str()[*from as usize..*to as usize]),
        Value::Time(moment) => write_time(*moment, zone.offset, out),
        Value::Interval(seconds) => write_interval(*seconds, out),
        Value::Version(version) => write_version(version, out),
        Value::File(path) => out.push(path.as_str()),
        Value::Folder(path) => out.push(path.as_str()),
        Value::Client => out.push("client"),
        Value::Setting { name, .. } => out.push(name.as_str()),
        Value::Process(name) => out.push(name.as_str()),
        Value::Package { name, version } => write_named(name, version, out),
        Value::System { name, version } => write_named(name, version, out),
        Value::Action => out.push("action"),
        Value::Tuple(_) => Ok(()),
    }
}

/// Appends the numbers joined by `.`.
fn write_version(version: &Version, out: &mut Text) -> Result<(), AllocError>
    ensures { OnOk result (out.new ≡ out.old ++ version_text version.now) }
{
    let numbers = version.as_slice();
    for (i, number) in numbers.iter().enumerate() {
        if i > 0 {
            out.push(".")?;
        }
        write_number(*number, out)?;
    }
    Ok(())
}

/// Appends a name, a space and a version.
fn write_named(name: &Text, version: &Version, out: &mut Text) -> Result<(), AllocError>
    ensures { OnOk result (out.new ≡ out.old ++ (name.now ++ 32 ∷ version_text version.now)) }
{
    out.push(name.as_str())?;
    out.push(" ")?;
    write_version(version, out)
}
