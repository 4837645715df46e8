ghost use Rattle.std.specs.Prelude.{List};
ghost use Rattle.office_text.specs.declared.order.Order.{Order};
ghost use Rattle.office_text.specs.OrderReadings.{FindsEntry, IsInText, ReadsEntry, TakesEntry};

use crate::error::OfficeError;
use crate::name_reader::name_ahead;
use crate::order::Order;
use crate::text_reader::{Last, take_to};
use group_text::{GroupError, read_analysis, read_group};
use line_forms::{Lines, lines_are_read_again, lines_make_the_text};
use std::alloc::Global;

/// What the book of an office is given.
#[derive(Clone, Copy)]
pub(crate) enum Entry {
    Analysis,
    Group,
}

/// Takes the lines of an analysis or of a group, if the first of them is ahead. They are its text, the first of them too.
pub(crate) fn take_entry(alloc: Global, lines: &mut Lines<'_>) -> Result<Option<Order>, OfficeError>
    requires { IsInText lines.old }
    ensures { (before : List Order) → TakesEntry before lines.old lines.new result }
{
    let Some(entry) = entry_ahead(lines) else {
        return Ok(None);
    };
    let first = lines.number();
    let taken = take_to(alloc, Last::End, lines)?;
    // Proof: the lines that were taken are those of their text, which is read as an entry.
    lines_make_the_text();
    lines_are_read_again();
    match read_entry(alloc, entry, taken.text.as_slice()) {
        Ok(order) => Ok(Some(order)),
        Err(GroupError::BadAnalysis(line)) => {
            Err(OfficeError::BadLine(first.saturating_add(line - 1)))
        }
        Err(GroupError::BadGroup(line)) => {
            Err(OfficeError::BadLine(first.saturating_add(line - 1)))
        }
        Err(GroupError::Memory) => Err(OfficeError::Memory),
    }
}

/// What is given by the lines ahead, if the first of them is that of an analysis or of a group.
fn entry_ahead(lines: &Lines<'_>) -> Option<Entry>
    ensures { FindsEntry lines.now result }
{
    if lines.line_ahead()? == b"analysis".as_slice() {
        return Some(Entry::Analysis);
    }
    name_ahead(b"group", lines)?;
    Some(Entry::Group)
}

fn read_entry(alloc: Global, entry: Entry, text: &[u8]) -> Result<Order, GroupError>
    ensures { ReadsEntry entry text.now result }
{
    match entry {
        Entry::Analysis => Ok(Order::Analysis(read_analysis(alloc, text)?)),
        Entry::Group => Ok(Order::Group(read_group(alloc, text)?)),
    }
}
