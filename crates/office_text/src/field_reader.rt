ghost use Rattle.std.specs.Prelude.{◌≡◌, decimal, option_copied, IfOk};
ghost use Rattle.std.specs.Fmt.{signed_decimal};
ghost use Rattle.desk_base.specs.Moments.{IsMoment};
ghost use Rattle.line_forms.specs.Names.{IsName};
ghost use Rattle.line_forms.specs.Numbers.{IsId};
ghost use Rattle.office_text.specs.Orders.{IsAnyNumber};
ghost use Rattle.office_text.specs.OrderReadings.{TakesField, itself, IsNewRelay, IsRelay, IsNewComputer, IsComputer};

use crate::orders_so_far::OrdersSoFar;
use line_forms::{Fields, read_id, read_moment, read_name, read_number};
use rel_lexer::Text;
use std::alloc::{AllocError, Global};

// Where the field ahead isn't what is looked for, it may have been taken all the same.

pub(crate) fn take_id(fields: &mut Fields<'_>) -> Option<u64>
    ensures { TakesField IsId decimal fields.old fields.new result }
{
    read_id(fields.take_field()?)
}

/// Takes a number of 64 bits.
pub(crate) fn take_number(fields: &mut Fields<'_>) -> Option<u64>
    ensures { TakesField IsAnyNumber decimal fields.old fields.new result }
{
    read_number(fields.take_field()?, u64::MAX)
}

pub(crate) fn take_moment(fields: &mut Fields<'_>) -> Option<i64>
    ensures { TakesField IsMoment signed_decimal fields.old fields.new result }
{
    read_moment(fields.take_field()?)
}

fn take_name<'a>(fields: &mut Fields<'a>) -> Option<&'a str>
    ensures { TakesField IsName itself fields.old fields.new (option_copied result) }
{
    read_name(fields.take_field()?)
}

/// Takes the name of a relay that none of these orders names.
fn take_new_relay_name<'a>(orders: &OrdersSoFar, fields: &mut Fields<'a>) -> Option<&'a str>
    ensures { TakesField (IsNewRelay orders.now) itself fields.old fields.new (option_copied result) }
{
    let name = take_name(fields)?;
    if orders.has_relay(name) {
        return None;
    }
    Some(name)
}

/// Takes the name of a relay that one of these orders names.
pub(crate) fn take_relay_name<'a>(orders: &OrdersSoFar, fields: &mut Fields<'a>) -> Option<&'a str>
    ensures { TakesField (IsRelay orders.now) itself fields.old fields.new (option_copied result) }
{
    let name = take_name(fields)?;
    if !orders.has_relay(name) {
        return None;
    }
    Some(name)
}

/// Takes the name of a computer that none of these orders names.
pub(crate) fn take_new_computer_name<'a>(
    orders: &OrdersSoFar,
    fields: &mut Fields<'a>,
) -> Option<&'a str>
    ensures { TakesField (IsNewComputer orders.now) itself fields.old fields.new (option_copied result) }
{
    let name = take_name(fields)?;
    if orders.has_computer(name) {
        return None;
    }
    Some(name)
}

/// Takes the name of a computer that one of these orders names.
fn take_computer_name<'a>(orders: &OrdersSoFar, fields: &mut Fields<'a>) -> Option<&'a str>
    ensures { TakesField (IsComputer orders.now) itself fields.old fields.new (option_copied result) }
{
    let name = take_name(fields)?;
    if !orders.has_computer(name) {
        return None;
    }
    Some(name)
}

/// A relay's name of its own, which none of these orders has.
pub(crate) fn take_new_relay(
    alloc: Global,
    orders: &OrdersSoFar,
    fields: &mut Fields<'_>,
) -> Result<Option<Text>, AllocError>
    ensures { IfOk result (TakesField (IsNewRelay orders.now) itself fields.old fields.new) }
{
    own(alloc, take_new_relay_name(orders, fields))
}

/// That of a relay that one of these orders names.
pub(crate) fn take_relay(
    alloc: Global,
    orders: &OrdersSoFar,
    fields: &mut Fields<'_>,
) -> Result<Option<Text>, AllocError>
    ensures { IfOk result (TakesField (IsRelay orders.now) itself fields.old fields.new) }
{
    own(alloc, take_relay_name(orders, fields))
}

/// That of a computer that one of these orders names.
pub(crate) fn take_computer(
    alloc: Global,
    orders: &OrdersSoFar,
    fields: &mut Fields<'_>,
) -> Result<Option<Text>, AllocError>
    ensures { IfOk result (TakesField (IsComputer orders.now) itself fields.old fields.new) }
{
    own(alloc, take_computer_name(orders, fields))
}

/// A name that need not be known.
pub(crate) fn take_any_name(
    alloc: Global,
    fields: &mut Fields<'_>,
) -> Result<Option<Text>, AllocError>
    ensures { IfOk result (TakesField IsName itself fields.old fields.new) }
{
    own(alloc, take_name(fields))
}

/// The name as a text of its own.
fn own(alloc: Global, name: Option<&str>) -> Result<Option<Text>, AllocError>
    ensures { IfOk result (λ text. text ≡ option_copied name.entry) }
{
    match name {
        Some(name) => Ok(Some(Text::from_str(alloc, name)?)),
        None => Ok(None),
    }
}
