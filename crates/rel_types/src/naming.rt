// What a name stands for, by its words and by its argument and object.
ghost use Rattle.std.specs.Prelude.{◌≡◌, IfOk, map, option_map};
ghost use Rattle.rel_types.specs.Heads.{first_row, head_of, item_head, item_kind, kind_at, literal_number};
ghost use Rattle.rel_types.specs.Plans.{held_kind};
ghost use Rattle.rel_types.specs.Tables.{shown_headed, shown_row};
ghost use Rattle.rel_types.specs.Views.{shown_held, shown_lent};
ghost use Rattle.rel_value.specs.Views.{shown_kind};

use crate::aggregates::aggregates;
use crate::given::{Given, parts_of};
use crate::node::kind_held;
use crate::properties::properties;
use crate::row::{Row, first_row};
use crate::{Form, Head, Node};
use rel_value::{Kind, PropertyId};
use std::alloc::AllocError;

/// What a name stands for.
#[derive(Drop)]
pub(crate) struct Headed {
    pub(crate) head: Head,
    pub(crate) plural: bool,
    pub(crate) kind: Kind,
}

/// What these words stand for with this argument and this object, if they stand for something.
#[tactic(auto, unfolding(crate::specs::Heads::head_of))]
pub(crate) fn head_of(
    words: &str,
    argument: &Option<Box<Node>>,
    object: &Option<Box<Node>>,
) -> Result<Option<Headed>, AllocError>
    ensures { IfOk result (λ o. option_map shown_headed o ≡ head_of words.now (shown_held argument.now) (shown_held object.now)) }
{
    if words == "item" {
        return item_head(false, argument, object);
    }
    if words == "items" {
        return item_head(true, argument, object);
    }
    let argument = Given::by(kind_held(argument));
    let object = Given::by(kind_held(object));
    match row_of(words, argument, object) {
        Some(row) => Ok(Some(Headed {
            head: row.head,
            plural: row.is_plural(words),
            kind: row.gives.kind(),
        })),
        None => Ok(None),
    }
}

fn row_of(words: &str, argument: Given, object: Given) -> Option<&'static Row>
    ensures { option_map (λ r. shown_row r.now) result ≡ first_row words.now argument object }
{
    match first_row(properties(), words, argument, object) {
        Some(row) => Some(row),
        None => first_row(aggregates(), words, argument, object),
    }
}

fn item_head(
    plural: bool,
    argument: &Option<Box<Node>>,
    object: &Option<Box<Node>>,
) -> Result<Option<Headed>, AllocError>
    ensures { IfOk result (λ o. option_map shown_headed o
        ≡ item_head plural (item_kind (literal_number (shown_held argument.now)) (held_kind (shown_held object.now)))) }
{
    match item_kind(literal_number(argument), kind_held(object)) {
        Some(kind) => Ok(Some(Headed {
            head: Head::Property(PropertyId::Item),
            plural,
            kind: kind.copy()?,
        })),
        None => Ok(None),
    }
}

/// The number of an argument that is a number itself.
fn literal_number(argument: &Option<Box<Node>>) -> Option<i64>
    ensures number { result ≡ literal_number (shown_held argument.now) }
{
    let Some(node) = argument else {
        return None;
    };
    match &node.form {
        Form::Number { number, .. } => Some(*number),
        _ => None,
    }
}

/// The kind of the part of a tuple that a number names, counted from 0.
fn item_kind(number: Option<i64>, object: Option<&Kind>) -> Option<&Kind>
    ensures { shown_lent result ≡ item_kind number (shown_lent object.entry) }
{
    let number = number?;
    match object? {
        Kind::Tuple(kinds) => kind_at(number, parts_of(kinds)),
        _ => None,
    }
}

fn kind_at(number: i64, kinds: &[Kind]) -> Option<&Kind>
    ensures { shown_lent result ≡ kind_at number (map shown_kind kinds.now) }
{
    if number < 0 {
        return None;
    }
    kinds.get(number as usize)
}
