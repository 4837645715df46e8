ghost use Rattle.std.specs.Prelude.{option_copied};
ghost use Rattle.office_text.specs.OrderReadings.{FindsName};

use line_forms::{Lines, read_name};

/// The name behind this word, if the line ahead has both and nothing else.
pub(crate) fn name_ahead<'a>(word: &[u8], lines: &Lines<'a>) -> Option<&'a str>
    ensures { FindsName word.now lines.now (option_copied result) }
{
    read_name(lines.rest_ahead(word)?)
}
