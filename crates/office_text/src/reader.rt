ghost use Rattle.office_text.specs.Offices.{ReadsOffice};
ghost use Rattle.office_text.specs.OrderReadings.{IsInText, TakesOrders};

use crate::error::OfficeError;
use crate::order_list::Orders;
use crate::order_reader::take_order;
use crate::orders_so_far::OrdersSoFar;
use line_forms::Lines;
use std::alloc::Global;

/// Reads an office: the line `office`, its orders, and the line `end`. A text that isn't that of an office is answered by its
/// first bad line.
pub fn read_office(alloc: Global, text: &[u8]) -> Result<Orders, OfficeError>
    ensures { ReadsOffice text.now result }
{
    let mut lines = Lines::new(text);
    if !lines.take_exactly(b"office") {
        return Err(OfficeError::BadLine(lines.number()));
    }
    let orders = take_orders(alloc, &mut lines)?;
    if !lines.take_exactly(b"end") {
        return Err(OfficeError::BadLine(lines.number()));
    }
    if !lines.is_over() {
        return Err(OfficeError::BadLine(lines.number()));
    }
    Ok(orders)
}

/// Takes the lines of orders, as far as they go.
fn take_orders(alloc: Global, lines: &mut Lines<'_>) -> Result<Orders, OfficeError>
    requires { IsInText lines.old }
    ensures { TakesOrders lines.old lines.new result }
{
    let mut orders = OrdersSoFar::new(alloc);
    while let Some(order) = take_order(alloc, &orders, lines)? {
        orders = orders.with(alloc, order)?;
    }
    Ok(orders.into_orders())
}
