ghost use Rattle.std.specs.Prelude.{IfOk, IsTrue, ◌↔◌};
ghost use Rattle.office_text.specs.OrderLines.{AreTextTo};
ghost use Rattle.office_text.specs.OrderReadings.{IsLast, TakesTo, TakesBody};

use desk_base::Bytes;
use line_forms::{Lines, after_word};
use std::alloc::{AllocError, Global};

/// What the last line of a text is.
#[derive(Clone, Copy)]
pub(crate) enum Last {
    /// It begins with `digest `, as that of a site does.
    Digest,
    /// It is `end`.
    End,
}

/// Lines that were taken as one text, and whether its last line was among them.
#[derive(Drop)]
pub(crate) struct Taken {
    pub(crate) text: Bytes,
    pub(crate) ended: bool,
}

/// Takes the lines of a text up to its last one, whatever they say.
pub(crate) fn take_text(
    alloc: Global,
    last: Last,
    lines: &mut Lines<'_>,
) -> Result<Option<Bytes>, AllocError>
    ensures { IfOk result (TakesBody (AreTextTo (IsLast last)) lines.old lines.new) }
{
    let taken = take_to(alloc, last, lines)?;
    if !taken.ended {
        return Ok(None);
    }
    Ok(Some(taken.text))
}

/// Takes the lines ahead up to the last one of a text, or all of them where that never comes.
pub(crate) fn take_to(alloc: Global, last: Last, lines: &mut Lines<'_>) -> Result<Taken, AllocError>
    ensures { IfOk result (TakesTo last lines.old lines.new) }
{
    let mut text = Bytes::new(alloc);
    while let Some(line) = lines.line_ahead() {
        lines.skip_line();
        text.extend(line)?;
        text.push(b'\n')?;
        if is_last(last, line) {
            return Ok(Taken { text, ended: true });
        }
    }
    Ok(Taken { text, ended: false })
}

/// Whether this is such a line.
pub(crate) fn is_last(last: Last, line: &[u8]) -> bool
    ensures { IsTrue result ↔ IsLast last line.now }
{
    match last {
        Last::Digest => after_word(line, b"digest").is_some(),
        Last::End => line == b"end".as_slice(),
    }
}
