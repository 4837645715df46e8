ghost use Rattle.std.specs.Prelude.{◌≡◌, IfOk};
ghost use Rattle.hex.specs.Hex.{encode_lower};
ghost use Rattle.rel_sources.specs.Traces.{once, text_item};
ghost use Rattle.rel_sources.specs.Draws.{item_in, IsSoundItem, values_in};
ghost use Rattle.rel_inspect.specs.Facets.{IsSoundOnce, sought_item, once_item, once_values};
ghost use Rattle.rel_sources.specs.Steps.{Moves, Falls, GivesSound};

use desk_base::Bytes;
use rel_lexer::Text;
use rel_sources::{HeldItem, Scene, WalkEvent, numbered_line, readable};
use rel_value::Value;
use sha1::Sha1;
use sha2::{Digest, Sha256};
use std::alloc::{AllocError, Global};

/// What gives one value or none.
#[derive(Drop)]
pub(crate) enum Once {
    Held(HeldItem),
    Sought(Sought),
}

/// What has still to be found.
#[derive(Drop)]
pub(crate) enum Sought {
    /// The moment.
    Now,
    /// The parameter of this name.
    Parameter(Text),
    ExitCode,
    /// The line of this number, counted from 1.
    LineAt { number: i64, content: Bytes },
    /// The digest of a content.
    Sha1(Bytes),
    /// The digest of a content.
    Sha256(Bytes),
}

impl Once {
    pub(crate) fn step(&mut self, alloc: Global, scene: &Scene) -> WalkEvent
        requires { IsSoundOnce self.old }
        ensures moves { Moves (once (once_item self.old scene.now)) result (once (once_item self.new scene.now)) }
        ensures falls { Falls result (once_values self.old) (once_values self.new) }
        ensures sound { IsSoundOnce self.new }
        ensures gives_sound { GivesSound result }
    {
        match self {
            Once::Held(held) => given_or_over(held),
            Once::Sought(sought) => {
                let Ok(mut held) = sought.find(alloc, scene) else {
                    return WalkEvent::Memory;
                };
                let event = given_or_over(&mut held);
                *self = Once::Held(held);
                event
            }
        }
    }
}

/// Gives what is held. Where nothing is, nothing is left.
fn given_or_over(held: &mut HeldItem) -> WalkEvent
    requires { IsSoundItem (item_in held.old) }
    ensures moves { Moves (once (item_in held.old)) result (once (item_in held.new)) }
    ensures falls { Falls result (values_in (item_in held.old)) (values_in (item_in held.new)) }
    ensures most { values_in (item_in held.new) ≡ 0 }
    ensures sound { IsSoundItem (item_in held.new) }
    ensures gives_sound { GivesSound result }
{
    match held.give() {
        Some(event) => event,
        None => WalkEvent::Over,
    }
}

impl Sought {
    fn find(&self, alloc: Global, scene: &Scene) -> Result<HeldItem, AllocError>
        ensures item { IfOk result (λ held. item_in held ≡ sought_item self.now scene.now) }
        ensures sound { IfOk result (λ held. IsSoundItem (item_in held)) }
    {
        match self {
            Sought::Now => Ok(HeldItem::Value(Value::Time(scene.moment))),
            Sought::Parameter(name) => match scene.parameters.value_of(name.as_str()) {
                Some(value) => Ok(HeldItem::text(value.copy()?)),
                None => Ok(HeldItem::Nothing),
            },
            Sought::ExitCode => match scene.exit {
                Some(exit) => Ok(HeldItem::Value(Value::Integer(exit))),
                None => Ok(HeldItem::Nothing),
            },
            Sought::LineAt { number, content } => {
                match numbered_line(content.as_slice(), *number) {
                    Some(line) => Ok(HeldItem::text(readable(alloc, line)?)),
                    None => Ok(HeldItem::Nothing),
                }
            }
            Sought::Sha1(content) => hexadecimal(alloc, &Sha1::digest(content.as_slice())),
            Sought::Sha256(content) => hexadecimal(alloc, &Sha256::digest(content.as_slice())),
        }
    }
}

/// A digest in hexadecimal digits.
fn hexadecimal(alloc: Global, digest: &[u8]) -> Result<HeldItem, AllocError>
    ensures item { IfOk result (λ held. item_in held ≡ text_item (encode_lower digest.now)) }
    ensures sound { IfOk result (λ held. IsSoundItem (item_in held)) }
{
    let digits = hex::encode(alloc, digest)?;
    Ok(HeldItem::text(Text::from_str(alloc, digits.as_str())?))
}
