ghost use Rattle.std.specs.Prelude.{◌≡◌, ◌<◌, ◌^◌, pos, map, length, All, IfOk, IfSome};
ghost use Rattle.std.specs.Option.{option_copied, option_map};
ghost use Rattle.std.specs.Str.{chars};
ghost use Rattle.rel_value.specs.Plain.{version, integer, time};
ghost use Rattle.rel_value.specs.Operands.{IsSound};
ghost use Rattle.rel_value.specs.Views.{shown};
ghost use Rattle.rel_sources.specs.Traces.{none, one, once, turns, text_item};
ghost use Rattle.rel_sources.specs.Scenes.{value_of};
ghost use Rattle.rel_sources.specs.Words.{pieces_by};
ghost use Rattle.rel_sources.specs.Rows.{item_of, text_item_of, integers, integer_item, first_item, last_item, part_numbered};
ghost use Rattle.rel_inspect.specs.Props.{with};
ghost use Rattle.rel_sources.specs.Draws.{item_in, IsSoundItem};
ghost use Rattle.rel_sources.specs.Sources.{items_in};
ghost use Rattle.rel_inspect.specs.Facets.{sought_item, IsSoundOffer};
ghost use Rattle.rel_inspect.specs.Offered.{IsShort};
ghost use Rattle.rel_inspect.specs.Left.{Begins};

use crate::offered::Bounds;
use crate::once::{Once, Sought};
use crate::turns::Turns;
use crate::walk::State;
use rel_lexer::Text;
use rel_sources::{HeldItem, Integers, ItemSource, Pieces, first_part, last_part};
use rel_value::{Value, Version};
use std::alloc::{AllocError, Global};

pub(crate) fn nothing() -> State
    ensures { Begins result (λ w s. none) }
{
    held(HeldItem::Nothing)
}

fn held(held: HeldItem) -> State
    requires { IsSoundItem (item_in held) }
    ensures { Begins result (λ w s. once (item_in held)) }
{
    State::Once(Once::Held(held))
}

pub(crate) fn given(value: Value) -> State
    requires { IsSound (shown value) }
    ensures { Begins result (λ w s. one (shown value)) }
{
    held(HeldItem::Value(value))
}

pub(crate) fn sought(sought: Sought) -> State
    ensures { Begins result (λ w s. once (sought_item sought s)) }
{
    State::Once(Once::Sought(sought))
}

fn several(source: ItemSource) -> State
    requires { All IsSoundItem (items_in source) }
    ensures { Begins result (λ w s. turns (items_in source)) }
{
    State::Turns(Turns::new(source))
}

/// The text where there is one.
pub(crate) fn text(alloc: Global, text: Option<&str>) -> Result<State, AllocError>
    ensures { IfOk result (λ st. Begins st (λ w s. once (text_item_of (option_copied text.entry)))) }
{
    let Some(text) = text else {
        return Ok(nothing());
    };
    Ok(held(HeldItem::text(Text::from_str(alloc, text)?)))
}

/// The version where there is one.
pub(crate) fn version(found: Option<&Version>) -> State
    ensures { Begins result (λ w s. once (item_of (option_map version (option_copied found.entry)))) }
{
    match found {
        Some(version) => given(Value::Version(version.copy())),
        None => nothing(),
    }
}

/// The time where there is one.
pub(crate) fn time(moment: Option<i64>) -> State
    requires { IsSoundOffer (option_map time moment) }
    ensures { Begins result (λ w s. once (item_of (option_map time moment))) }
{
    match moment {
        Some(moment) => given(Value::Time(moment)),
        None => nothing(),
    }
}

/// The integers from the first to the second.
pub(crate) fn integers(bounds: Option<Bounds>) -> State
    ensures { Begins result (λ w s. with bounds (λ b. turns (map integer_item (integers b.from b.to)))) }
{
    match bounds {
        Some(bounds) => several(ItemSource::Integers(Integers::new(bounds.from, bounds.to))),
        None => nothing(),
    }
}

/// The number of characters of a text.
pub(crate) fn length(text: Option<&str>) -> State
    ensures { Begins result (λ w s. with (option_copied text.entry) (λ t. one (integer (pos (length (chars t)))))) }
{
    match text {
        Some(text) => given(Value::Integer(characters(text) as i64)),
        None => nothing(),
    }
}

/// How many characters a text has.
fn characters(text: &str) -> usize
    ensures count { result ≡ length (chars text.now) }
    ensures small { result < 2 ^ 63 }
{
    text.chars().count()
}

/// The leftmost part of a text with these bytes.
pub(crate) fn first(
    alloc: Global,
    wanted: Option<&str>,
    text: Option<&str>,
) -> Result<State, AllocError>
    requires { IsShort (option_copied text) }
    ensures { IfOk result (λ st. Begins st (λ w s. with (option_copied wanted.entry)
        (λ p. with (option_copied text.entry) (λ t. once (first_item p t))))) }
{
    match (wanted, text) {
        (Some(wanted), Some(text)) => Ok(held(first_part(alloc, wanted, text)?)),
        _ => Ok(nothing()),
    }
}

/// The rightmost.
pub(crate) fn last(
    alloc: Global,
    wanted: Option<&str>,
    text: Option<&str>,
) -> Result<State, AllocError>
    requires { IsShort (option_copied text) }
    ensures { IfOk result (λ st. Begins st (λ w s. with (option_copied wanted.entry)
        (λ p. with (option_copied text.entry) (λ t. once (last_item p t))))) }
{
    match (wanted, text) {
        (Some(wanted), Some(text)) => Ok(held(last_part(alloc, wanted, text)?)),
        _ => Ok(nothing()),
    }
}

/// The pieces of a text between separators.
pub(crate) fn pieces(
    alloc: Global,
    separator: Option<&str>,
    text: Option<&str>,
) -> Result<State, AllocError>
    ensures { IfOk result (λ st. Begins st (λ w s. with (option_copied separator.entry)
        (λ x. with (option_copied text.entry) (λ t. turns (map text_item (pieces_by x t)))))) }
{
    let (Some(separator), Some(text)) = (separator, text) else {
        return Ok(nothing());
    };
    let separator = Text::from_str(alloc, separator)?;
    let text = Text::from_str(alloc, text)?;
    Ok(several(ItemSource::Pieces(Pieces::new(separator, text))))
}

/// The parameter of this name.
pub(crate) fn parameter(alloc: Global, name: Option<&str>) -> Result<State, AllocError>
    ensures { IfOk result (λ st. Begins st (λ w s. with (option_copied name.entry)
        (λ n. once (text_item_of (value_of n s.parameters))))) }
{
    match name {
        Some(name) => Ok(sought(Sought::Parameter(Text::from_str(alloc, name)?))),
        None => Ok(nothing()),
    }
}

/// The part of a tuple of this number, from 0.
pub(crate) fn part(number: Option<i64>, parts: Option<&[Value]>) -> Result<State, AllocError>
    requires { IfSome parts (λ ps. All (λ v. IsSound (shown v)) ps.now) }
    ensures { IfOk result (λ st. Begins st (λ w s. with number
        (λ n. with (option_map (map shown) (option_copied parts.entry)) (λ ps. once (item_of (part_numbered n ps)))))) }
{
    let (Some(number), Some(parts)) = (number, parts) else {
        return Ok(nothing());
    };
    if number < 0 {
        return Ok(nothing());
    }
    match parts.get(number as usize) {
        Some(part) => Ok(given(part.copy()?)),
        None => Ok(nothing()),
    }
}
