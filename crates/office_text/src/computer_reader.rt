ghost use Rattle.office_text.specs.OrderReadings.{FindsNames, IsInText, TakesComputer};

use crate::error::OfficeError;
use crate::field_reader::{take_new_computer_name, take_relay_name};
use crate::order::Order;
use crate::orders_so_far::OrdersSoFar;
use crate::text_reader::{Last, take_to};
use line_forms::{Fields, Lines, lines_are_read_again, lines_make_the_text};
use rel_lexer::Text;
use std::alloc::Global;
use world_text::{WorldError, read_named_world};

/// The names of a computer and of its relay.
#[derive(Clone, Copy)]
struct Names<'a> {
    computer: &'a str,
    relay: &'a str,
}

/// Takes the line of a computer that can follow these orders, if it is ahead, and the lines of its world. The world of another
/// name is bad at its name's line.
pub(crate) fn take_computer_order(
    alloc: Global,
    orders: &OrdersSoFar,
    lines: &mut Lines<'_>,
) -> Result<Option<Order>, OfficeError>
    requires { IsInText lines.old }
    ensures { TakesComputer orders.now lines.old lines.new result }
{
    let Some(names) = names_ahead(orders, lines) else {
        return Ok(None);
    };
    lines.skip_line();
    let first = lines.number();
    let name = Text::from_str(alloc, names.computer)?;
    let relay = Text::from_str(alloc, names.relay)?;
    let taken = take_to(alloc, Last::End, lines)?;
    // Proof: the lines that were taken are those of their text, which is read as a world.
    lines_make_the_text();
    lines_are_read_again();
    match read_named_world(alloc, names.computer, taken.text.as_slice()) {
        Ok(world) => Ok(Some(Order::Computer { name, relay, world })),
        Err(WorldError::BadLine(line)) => {
            Err(OfficeError::BadLine(first.saturating_add(line - 1)))
        }
        Err(WorldError::Memory) => Err(OfficeError::Memory),
    }
}

/// The names on the line ahead, if it is that of a computer that can follow these orders.
fn names_ahead<'a>(orders: &OrdersSoFar, lines: &Lines<'a>) -> Option<Names<'a>>
    ensures { FindsNames orders.now lines.now result }
{
    let mut fields = Fields::new(lines.rest_ahead(b"computer")?);
    let computer = take_new_computer_name(orders, &mut fields)?;
    let relay = take_relay_name(orders, &mut fields)?;
    if !fields.is_over() {
        return None;
    }
    Some(Names { computer, relay })
}
