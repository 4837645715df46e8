ghost use Rattle.std.specs.Prelude.{IfOk, option_copied};
ghost use Rattle.line_forms.specs.Contents.{content_line};
ghost use Rattle.line_forms.specs.Names.{IsLineText};
ghost use Rattle.line_forms.specs.Readers.{TakesOne};
ghost use Rattle.office_text.specs.OrderLines.{HoldContent};
ghost use Rattle.office_text.specs.OrderReadings.{TakesBody, TakesContent};

use desk_base::Bytes;
use line_forms::{Lines, read_content};
use std::alloc::{AllocError, Global};

/// Takes lines of content and the line `end` behind them.
pub(crate) fn take_content(
    alloc: Global,
    lines: &mut Lines<'_>,
) -> Result<Option<Bytes>, AllocError>
    ensures { IfOk result (TakesBody HoldContent lines.old lines.new) }
{
    let content = take_content_lines(alloc, lines)?;
    if !lines.take_exactly(b"end") {
        return Ok(None);
    }
    Ok(Some(content))
}

/// Takes lines of content, as far as they go.
fn take_content_lines(alloc: Global, lines: &mut Lines<'_>) -> Result<Bytes, AllocError>
    ensures { IfOk result (TakesContent lines.old lines.new) }
{
    let mut content = Bytes::new(alloc);
    while let Some(line) = take_content_line(lines) {
        content.extend(line.as_bytes())?;
        content.push(b'\n')?;
    }
    Ok(content)
}

fn take_content_line<'a>(lines: &mut Lines<'a>) -> Option<&'a str>
    ensures { TakesOne IsLineText content_line lines.old lines.new (option_copied result) }
{
    let line = read_content(lines.line_ahead()?)?;
    lines.skip_line();
    Some(line)
}
