ghost use Rattle.std.specs.Prelude.{IfOk};
ghost use Rattle.line_forms.specs.Readers.{Spells, TakesOne};
ghost use Rattle.office_text.specs.OrderLines.{first_line};
ghost use Rattle.office_text.specs.OrderReadings.{IsShort, TakesArguments};

use crate::field_reader::{
    take_any_name, take_computer, take_id, take_moment, take_new_relay, take_number, take_relay,
};
use crate::order::Order;
use crate::orders_so_far::OrdersSoFar;
use crate::word::{Word, word_of};
use line_forms::{Fields, Lines};
use std::alloc::{AllocError, Global};

/// Takes the line of an order of one line that can follow these, if it is ahead.
pub(crate) fn take_short(
    alloc: Global,
    orders: &OrdersSoFar,
    lines: &mut Lines<'_>,
) -> Result<Option<Order>, AllocError>
    ensures { IfOk result (TakesOne (IsShort orders.now) first_line lines.old lines.new) }
{
    let Some(line) = lines.line_ahead() else {
        return Ok(None);
    };
    let Some(order) = read_short(alloc, orders, line)? else {
        return Ok(None);
    };
    lines.skip_line();
    Ok(Some(order))
}

/// Reads the line of an order of one line that can follow these.
fn read_short(alloc: Global, orders: &OrdersSoFar, line: &[u8]) -> Result<Option<Order>, AllocError>
    ensures { IfOk result (Spells (IsShort orders.now) first_line line.now) }
{
    let mut fields = Fields::new(line);
    let Some(field) = fields.take_field() else {
        return Ok(None);
    };
    let Some(word) = word_of(field) else {
        return Ok(None);
    };
    let Some(order) = take_arguments(alloc, word, orders, &mut fields)? else {
        return Ok(None);
    };
    if !fields.is_over() {
        return Ok(None);
    }
    Ok(Some(order))
}

/// Takes the fields behind the word of an order.
fn take_arguments(
    alloc: Global,
    word: Word,
    orders: &OrdersSoFar,
    fields: &mut Fields<'_>,
) -> Result<Option<Order>, AllocError>
    ensures { IfOk result (TakesArguments orders.now word fields.old fields.new) }
{
    match word {
        Word::Stop => Ok(take_id(fields).map(Order::Stop)),
        Word::Relay => Ok(take_new_relay(alloc, orders, fields)?.map(Order::Relay)),
        Word::Gather => Ok(take_relay(alloc, orders, fields)?.map(Order::Gather)),
        Word::Turn => take_turn(alloc, orders, fields),
        Word::Restart => Ok(take_computer(alloc, orders, fields)?.map(Order::Restart)),
        Word::Send => take_send(alloc, orders, fields),
        Word::Push => Ok(take_relay(alloc, orders, fields)?.map(Order::Push)),
        Word::Deliver => Ok(take_number(fields).map(Order::Deliver)),
        Word::Report => Ok(take_computer(alloc, orders, fields)?.map(Order::Report)),
        Word::Forward => Ok(take_relay(alloc, orders, fields)?.map(Order::Forward)),
        Word::Forget => Ok(take_relay(alloc, orders, fields)?.map(Order::Forget)),
        Word::Measure => take_measure(alloc, orders, fields),
        Word::Members => Ok(take_any_name(alloc, fields)?.map(Order::Members)),
    }
}

fn take_turn(
    alloc: Global,
    orders: &OrdersSoFar,
    fields: &mut Fields<'_>,
) -> Result<Option<Order>, AllocError>
    ensures { IfOk result (TakesArguments orders.now Word.Turn fields.old fields.new) }
{
    let Some(name) = take_computer(alloc, orders, fields)? else {
        return Ok(None);
    };
    let Some(moment) = take_moment(fields) else {
        return Ok(None);
    };
    Ok(Some(Order::Turn { name, moment }))
}

fn take_send(
    alloc: Global,
    orders: &OrdersSoFar,
    fields: &mut Fields<'_>,
) -> Result<Option<Order>, AllocError>
    ensures { IfOk result (TakesArguments orders.now Word.Send fields.old fields.new) }
{
    let Some(name) = take_computer(alloc, orders, fields)? else {
        return Ok(None);
    };
    let Some(seq) = take_number(fields) else {
        return Ok(None);
    };
    Ok(Some(Order::Send { name, seq }))
}

fn take_measure(
    alloc: Global,
    orders: &OrdersSoFar,
    fields: &mut Fields<'_>,
) -> Result<Option<Order>, AllocError>
    ensures { IfOk result (TakesArguments orders.now Word.Measure fields.old fields.new) }
{
    let Some(name) = take_computer(alloc, orders, fields)? else {
        return Ok(None);
    };
    let Some(moment) = take_moment(fields) else {
        return Ok(None);
    };
    Ok(Some(Order::Measure { name, moment }))
}
