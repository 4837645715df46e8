ghost use Rattle.std.specs.Prelude.{◌≡◌, ◌+◌, ◌≤◌, length, IfOk};
ghost use Rattle.rel_sources.specs.Traces.{Present};
ghost use Rattle.rel_sources.specs.Rows.{part_at, first_item, last_item};
ghost use Rattle.rel_sources.specs.Draws.{item_in, IsSoundItem};

use crate::held::HeldItem;
use rel_lexer::Text;
use rel_value::Value;
use std::alloc::{AllocError, Global};

/// The leftmost part of a text with these bytes; no part is empty.
pub fn first_part(alloc: Global, wanted: &str, text: &str) -> Result<HeldItem, AllocError>
    requires { length text.now ≤ 4294967295 }
    ensures item { IfOk result (λ held. item_in held ≡ first_item wanted.now text.now) }
    ensures sound { IfOk result (λ held. IsSoundItem (item_in held)) }
{
    if wanted.is_empty() {
        return Ok(HeldItem::Nothing);
    }
    match text.find(wanted) {
        Some(place) => part_at(alloc, wanted, text, place),
        None => Ok(HeldItem::Nothing),
    }
}

/// The rightmost.
pub fn last_part(alloc: Global, wanted: &str, text: &str) -> Result<HeldItem, AllocError>
    requires { length text.now ≤ 4294967295 }
    ensures item { IfOk result (λ held. item_in held ≡ last_item wanted.now text.now) }
    ensures sound { IfOk result (λ held. IsSoundItem (item_in held)) }
{
    if wanted.is_empty() {
        return Ok(HeldItem::Nothing);
    }
    match text.rfind(wanted) {
        Some(place) => part_at(alloc, wanted, text, place),
        None => Ok(HeldItem::Nothing),
    }
}

/// The part of a text at this place.
fn part_at(alloc: Global, wanted: &str, text: &str, place: usize) -> Result<HeldItem, AllocError>
    requires short { length text.now ≤ 4294967295 }
    requires inside { place + length wanted.now ≤ length text.now }
    ensures { IfOk result (λ held. item_in held ≡ Present (part_at wanted.now text.now place)) }
{
    Ok(HeldItem::Value(Value::Part {
        whole: Text::from_str(alloc, text)?,
        from: place as u32,
        to: (place + wanted.len()) as u32,
    }))
}
