// Nodes over nodes, before their first step. They are on the heap, so that putting them together moves none of them.
ghost use Rattle.std.specs.Prelude.{◌≡◌, IfOk, MatchOption};
ghost use Rattle.rel_types.specs.Views.{shown_held};
ghost use Rattle.rel_value.specs.Views.{shown_kind};
ghost use Rattle.rel_trace.specs.Ones.{apply_kind, one_kind, single_kind};
ghost use Rattle.rel_trace.specs.Twos.{left_kind, two_kind};
ghost use Rattle.rel_nodes.specs.Core.{choice_core, one_core, prefix_kind, property_core, singly_core, two_core};
ghost use Rattle.rel_nodes.specs.Meaning.{concatenation_of, fold_of, sum_of};
ghost use Rattle.rel_nodes.specs.Nodes.{boxed_shape, pure_shape, shape};

use crate::{Node, Property, Pure};
use rel_lexer::{Place, UnarySign};
use rel_trace::{Apply, Choice, Draw, Fold, Hand, Handing, One, Two};
use rel_types::Aggregate;
use rel_value::{Kind, PropertyId};
use std::alloc::{AllocError, Global};
use std::mem;

pub(crate) fn on_heap(alloc: Global, node: Node) -> Result<Box<Node>, AllocError>
    ensures { IfOk result (λ n. n.value ≡ node) }
{
    Ok(Box::new(alloc, node)?)
}

pub(crate) fn pure(alloc: Global, pure: Pure) -> Result<Box<Node>, AllocError>
    ensures { IfOk result (λ n. boxed_shape n ≡ pure_shape pure) }
{
    on_heap(alloc, Node::Pure { pure, given: false })
}

/// A property that has an argument and an object, or has not, with its head at this place.
pub(crate) fn property(
    alloc: Global,
    id: PropertyId,
    argument: bool,
    object: bool,
    head: Place,
) -> Result<Box<Node>, AllocError>
    ensures { IfOk result (λ n. boxed_shape n ≡ property_core id argument object head) }
{
    let row = Property {
        id,
        argument,
        object,
        head,
        walk: None,
    };
    on_heap(alloc, Node::Property(row))
}

pub(crate) fn with_one(alloc: Global, part: Box<Node>, state: One) -> Result<Box<Node>, AllocError>
    ensures { IfOk result (λ n. boxed_shape n ≡ one_core (one_kind state) (boxed_shape part)) }
{
    match state {
        One::Apply(apply) => with_apply(alloc, part, apply),
        One::Draw(Draw::Single { place, .. }) => with_single(alloc, part, place),
        state => on_heap(alloc, Node::WithOne { part, state }),
    }
}

/// A sign or a cast of a part.
fn with_apply(alloc: Global, mut part: Box<Node>, apply: Apply) -> Result<Box<Node>, AllocError>
    ensures { IfOk result (λ n. boxed_shape n ≡ one_core (apply_kind apply) (boxed_shape part)) }
{
    if let Node::Pure { pure: inner, .. } = &mut *part {
        let part = Box::new(alloc, mem::replace(inner, Pure::It))?;
        return pure(alloc, Pure::Applied { part, apply });
    }
    let state = One::Apply(apply);
    on_heap(alloc, Node::WithOne { part, state })
}

/// The one value of a part, with its head at this place.
fn with_single(alloc: Global, mut part: Box<Node>, place: Place) -> Result<Box<Node>, AllocError>
    ensures { IfOk result (λ n. boxed_shape n ≡ one_core (single_kind place) (boxed_shape part)) }
{
    if let Node::Pure { pure: inner, .. } = &mut *part {
        let part = Box::new(alloc, mem::replace(inner, Pure::It))?;
        return pure(alloc, Pure::Single { part, place });
    }
    let state = One::single(place);
    on_heap(alloc, Node::WithOne { part, state })
}

pub(crate) fn with_two(
    alloc: Global,
    first: Box<Node>,
    second: Box<Node>,
    state: Two,
) -> Result<Box<Node>, AllocError>
    ensures { IfOk result (λ n. boxed_shape n ≡ two_core (two_kind state) (boxed_shape first) (boxed_shape second)) }
{
    match state {
        Two::Handing(
            Handing {
                hand: Hand::Left,
                ..
            },
        ) => with_left(alloc, first, second),
        state => on_heap(
            alloc,
            Node::WithTwo {
                first,
                second,
                state,
            },
        ),
    }
}

/// The second part with the value of the first to its left.
fn with_left(
    alloc: Global,
    mut first: Box<Node>,
    mut second: Box<Node>,
) -> Result<Box<Node>, AllocError>
    ensures { IfOk result (λ n. boxed_shape n ≡ two_core left_kind (boxed_shape first) (boxed_shape second)) }
{
    if let Some(whole) = pure_joined(alloc, &mut first, &mut second)? {
        return Ok(whole);
    }
    let state = Two::left();
    on_heap(
        alloc,
        Node::WithTwo {
            first,
            second,
            state,
        },
    )
}

/// The same as one pure part, where both parts are pure. They are taken then, and what stands in their places is dropped with the
/// nodes.
fn pure_joined(
    alloc: Global,
    first: &mut Node,
    second: &mut Node,
) -> Result<Option<Box<Node>>, AllocError>
    ensures { IfOk result (λ o. MatchOption o ((first.new ≡ first.old) × (second.new ≡ second.old))
        (λ n. boxed_shape n ≡ two_core left_kind (shape first.old) (shape second.old))) }
{
    let Node::Pure { pure: left, .. } = first else {
        return Ok(None);
    };
    let Node::Pure { pure: right, .. } = second else {
        return Ok(None);
    };
    let first = Box::new(alloc, mem::replace(left, Pure::It))?;
    let second = Box::new(alloc, mem::replace(right, Pure::It))?;
    let whole = pure(alloc, Pure::Joined { first, second })?;
    Ok(Some(whole))
}

pub(crate) fn with_choice(
    alloc: Global,
    test: Box<Node>,
    yes: Box<Node>,
    no: Box<Node>,
) -> Result<Box<Node>, AllocError>
    ensures { IfOk result (λ n. boxed_shape n ≡ choice_core (boxed_shape test) (boxed_shape yes) (boxed_shape no)) }
{
    on_heap(
        alloc,
        Node::WithChoice {
            test,
            yes,
            no,
            state: Choice::new(),
        },
    )
}

/// All values of what is plural, and the one value of what is singular, with its head at this place.
pub(crate) fn singly(
    alloc: Global,
    plural: bool,
    head: Place,
    part: Box<Node>,
) -> Result<Box<Node>, AllocError>
    ensures { IfOk result (λ n. boxed_shape n ≡ singly_core plural head (boxed_shape part)) }
{
    if plural {
        return Ok(part);
    }
    with_one(alloc, part, One::single(head))
}

/// A sign before an operand.
pub(crate) fn prefix(sign: UnarySign, place: Place) -> One
    ensures { one_kind result ≡ prefix_kind sign place }
{
    match sign {
        UnarySign::Not => One::not(place),
        UnarySign::Exists => One::exists(),
        UnarySign::Exist => One::exists(),
        UnarySign::Minus => One::negate(place),
    }
}

/// The fold of an aggregate that gives this kind.
pub(crate) fn fold_of(
    aggregate: Aggregate,
    kind: &Kind,
    argument: &Option<Box<rel_types::Node>>,
) -> Fold
    ensures { result ≡ fold_of aggregate (shown_kind kind.now) (shown_held argument.now) }
{
    match aggregate {
        Aggregate::Number => Fold::Number,
        Aggregate::Sum => sum_of(kind),
        Aggregate::Maximum => Fold::Maximum,
        Aggregate::Minimum => Fold::Minimum,
        Aggregate::Conjunction => Fold::Conjunction,
        Aggregate::Disjunction => Fold::Disjunction,
        Aggregate::Concatenation => concatenation_of(argument),
    }
}

fn sum_of(kind: &Kind) -> Fold
    ensures { result ≡ sum_of (shown_kind kind.now) }
{
    match kind {
        Kind::Interval => Fold::IntervalSum,
        _ => Fold::IntegerSum,
    }
}

fn concatenation_of(argument: &Option<Box<rel_types::Node>>) -> Fold
    ensures { result ≡ concatenation_of (shown_held argument.now) }
{
    match argument {
        Some(_) => Fold::Separated,
        None => Fold::Concatenation,
    }
}
