ghost use Rattle.std.specs.Prelude.{◌≡◌, List, MatchOption};
ghost use Rattle.office_text.specs.declared.order.Order.{Order};
ghost use Rattle.office_text.specs.OrderReadings.{IsInText, TakesOrder, TakesWithText};

use crate::book_reader::take_entry;
use crate::computer_reader::take_computer_order;
use crate::content_reader::take_content;
use crate::error::OfficeError;
use crate::order::Order;
use crate::orders_so_far::OrdersSoFar;
use crate::short_reader::take_short;
use crate::target_reader::take_target;
use crate::text_reader::{Last, take_text};
use line_forms::Lines;
use std::alloc::Global;

/// Takes the lines of an order that can follow these, if the first of them is ahead. An error has the number of the line at
/// which the order doesn't go on.
pub(crate) fn take_order(
    alloc: Global,
    orders: &OrdersSoFar,
    lines: &mut Lines<'_>,
) -> Result<Option<Order>, OfficeError>
    requires { IsInText lines.old }
    ensures { TakesOrder orders.now lines.old lines.new result }
{
    if let Some(order) = take_short(alloc, orders, lines)? {
        return Ok(Some(order));
    }
    if let Some(order) = take_with_text(alloc, lines)? {
        return Ok(Some(order));
    }
    if let Some(order) = take_entry(alloc, lines)? {
        return Ok(Some(order));
    }
    if let Some(order) = take_target(alloc, lines)? {
        return Ok(Some(order));
    }
    take_computer_order(alloc, orders, lines)
}

/// Takes the lines of a site, an action or a file, if the first of them is ahead.
fn take_with_text(alloc: Global, lines: &mut Lines<'_>) -> Result<Option<Order>, OfficeError>
    ensures { (before : List Order) → TakesWithText before lines.old lines.new result }
{
    if lines.take_exactly(b"publish") {
        return whole(
            take_text(alloc, Last::Digest, lines)?.map(Order::Publish),
            lines,
        );
    }
    if lines.take_exactly(b"act") {
        return whole(take_text(alloc, Last::End, lines)?.map(Order::Act), lines);
    }
    if lines.take_exactly(b"file") {
        return whole(take_content(alloc, lines)?.map(Order::File), lines);
    }
    Ok(None)
}

/// An order whose lines were taken, or the line at which they don't go on.
fn whole(order: Option<Order>, lines: &Lines<'_>) -> Result<Option<Order>, OfficeError>
    ensures { MatchOption order (result ≡ Err (OfficeError.BadLine lines.now.number)) (λ order. result ≡ Ok (Some order)) }
{
    match order {
        Some(order) => Ok(Some(order)),
        None => Err(OfficeError::BadLine(lines.number())),
    }
}
