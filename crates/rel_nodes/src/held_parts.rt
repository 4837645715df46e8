// Nodes over parts that may be there.
ghost use Rattle.std.specs.Prelude.{◌≡◌, IfOk};
ghost use Rattle.rel_types.specs.Views.{shown_held};
ghost use Rattle.rel_value.specs.Views.{shown_kind};
ghost use Rattle.rel_nodes.specs.Core.{is_there};
ghost use Rattle.rel_nodes.specs.Nodes.{boxed_shape};
ghost use Rattle.rel_nodes.specs.HeldParts.{argued_part, filtered_part, gathered_part, head_part, over_part, part_shape};

use crate::Node;
use crate::make::{fold_of, on_heap, property, with_one, with_two};
use rel_lexer::Place;
use rel_trace::{One, Two};
use rel_types::Head;
use rel_value::Kind;
use std::alloc::{AllocError, Global};

fn is_there(held: &Option<Box<rel_types::Node>>) -> bool
    ensures { result ≡ is_there (shown_held held.now) }
{
    match held {
        Some(_) => true,
        None => false,
    }
}

/// The values of a property or of an aggregate, whose argument is handed down.
pub(crate) fn headed(
    alloc: Global,
    kind: &Kind,
    place: Place,
    head: &Head,
    argument: &Option<Box<rel_types::Node>>,
    object: Option<Box<Node>>,
) -> Result<Box<Node>, AllocError>
    ensures { IfOk result (λ n.
        boxed_shape n ≡ head_part (shown_kind kind.now) place head.now (shown_held argument.now) (part_shape object)) }
{
    match head {
        Head::Property(id) => {
            let row = property(alloc, *id, is_there(argument), object.is_some(), place)?;
            over(alloc, place, object, row)
        }
        Head::Aggregate(aggregate) => {
            let all = gathered(alloc, object)?;
            let fold = fold_of(*aggregate, kind, argument);
            with_one(alloc, all, One::fold(fold, place))
        }
    }
}

/// The values with the value of the argument, if there is one.
pub(crate) fn argued(
    alloc: Global,
    argument: Option<Box<Node>>,
    values: Box<Node>,
) -> Result<Box<Node>, AllocError>
    ensures { IfOk result (λ n. boxed_shape n ≡ argued_part (part_shape argument) (boxed_shape values)) }
{
    match argument {
        None => Ok(values),
        Some(first) => with_two(alloc, first, values, Two::argument()),
    }
}

/// The values for each value of the object, if there is one, with the head at this place.
pub(crate) fn over(
    alloc: Global,
    head: Place,
    object: Option<Box<Node>>,
    values: Box<Node>,
) -> Result<Box<Node>, AllocError>
    ensures { IfOk result (λ n. boxed_shape n ≡ over_part head (part_shape object) (boxed_shape values)) }
{
    match object {
        None => Ok(values),
        Some(first) => with_two(alloc, first, values, Two::each(head)),
    }
}

/// All values of the object.
fn gathered(alloc: Global, object: Option<Box<Node>>) -> Result<Box<Node>, AllocError>
    ensures { IfOk result (λ n. boxed_shape n ≡ gathered_part (part_shape object)) }
{
    match object {
        None => on_heap(alloc, Node::Nothing),
        Some(object) => Ok(object),
    }
}

/// The values that the filter keeps, if there is one, with the head at this place.
pub(crate) fn filtered(
    alloc: Global,
    head: Place,
    filter: Option<Box<Node>>,
    values: Box<Node>,
) -> Result<Box<Node>, AllocError>
    ensures { IfOk result (λ n. boxed_shape n ≡ filtered_part head (part_shape filter) (boxed_shape values)) }
{
    match filter {
        None => Ok(values),
        Some(test) => with_two(alloc, values, test, Two::sift(head)),
    }
}
