ghost use Rattle.std.specs.Prelude.{◌≡◌, ◌↔◌, List, codes, IfOk, IsTrue};
ghost use Rattle.office_text.specs.declared.order.Order.{Order};
ghost use Rattle.office_text.specs.OrderLines.{AreTargetLines};
ghost use Rattle.office_text.specs.OrderReadings.{TakesBody, TakesTarget};

use crate::error::OfficeError;
use crate::name_reader::name_ahead;
use crate::order::Order;
use crate::text_reader::{Last, is_last};
use desk_base::Bytes;
use line_forms::Lines;
use rel_lexer::Text;
use std::alloc::{AllocError, Global};

/// Takes the lines of an action for the members of a group, if the first of them is ahead.
pub(crate) fn take_target(
    alloc: Global,
    lines: &mut Lines<'_>,
) -> Result<Option<Order>, OfficeError>
    ensures { (before : List Order) → TakesTarget before lines.old lines.new result }
{
    let Some(name) = name_ahead(b"target", lines) else {
        return Ok(None);
    };
    lines.skip_line();
    let group = Text::from_str(alloc, name)?;
    match take_action(alloc, lines)? {
        Some(action) => Ok(Some(Order::Target { group, action })),
        None => Err(OfficeError::BadLine(lines.number())),
    }
}

/// Takes the lines of an action up to its `end`. That is left where `target all` doesn't stand before it.
fn take_action(alloc: Global, lines: &mut Lines<'_>) -> Result<Option<Bytes>, AllocError>
    ensures { IfOk result (TakesBody AreTargetLines lines.old lines.new) }
{
    let mut text = Bytes::new(alloc);
    let mut for_all = false;
    while let Some(line) = lines.line_ahead() {
        let last = is_last(Last::End, line);
        if last && !for_all {
            return Ok(None);
        }
        lines.skip_line();
        text.extend(line)?;
        text.push(b'\n')?;
        if last {
            return Ok(Some(text));
        }
        for_all = is_for_all(line) || for_all;
    }
    Ok(None)
}

fn is_for_all(line: &[u8]) -> bool
    ensures { IsTrue result ↔ (line.now ≡ codes "target all") }
{
    line == b"target all".as_slice()
}
