// Nodes from their parts.
ghost use Rattle.std.specs.Prelude.{◌≡◌, IfOk, Ok, codes, false};
ghost use Rattle.rel_types.specs.Arms.{casted, collected, signed, tupled};
ghost use Rattle.rel_types.specs.Outcomes.{Answers, after, defined};
ghost use Rattle.rel_types.specs.Plans.{a_node, chain, held_plural, it, literal, node, numeral};
ghost use Rattle.rel_types.specs.Tables.{shown_headed};
ghost use Rattle.rel_types.specs.Typing.{body_node, choice_node, named_node};
ghost use Rattle.rel_types.specs.Views.{shown_form, shown_held, shown_lent, shown_links, shown_node, shown_nodes};
ghost use Rattle.rel_value.specs.Plain.{integers, texts};
ghost use Rattle.rel_value.specs.Views.{shown_kind};

use crate::casts::casts;
use crate::kinds::{it_kind, shared_kind, signed_kind, tuple_kind};
use crate::naming::Headed;
use crate::{Form, Links, Node, NodeList, TypeError};
use rel_grammar::CastList;
use rel_lexer::{Place, Text, UnarySign};
use rel_value::Kind;
use std::alloc::{AllocError, Global};

pub(crate) fn numeral(place: Place, number: i64) -> Node
    ensures { shown_node result ≡ node integers false (numeral place number) }
{
    singular(Kind::Integer, Form::Number { place, number })
}

#[tactic(auto, unfolding(crate::specs::Outcomes::Fails), using(crate::proofs::Steps::no_memory))]
pub(crate) fn literal(place: Place, text: &Text) -> Result<Node, TypeError>
    ensures { Answers shown_node (Ok (node texts false (literal place text.now))) result }
{
    let text = text.copy()?;
    Ok(singular(Kind::Text, Form::Literal { place, text }))
}

#[tactic(auto, unfolding(crate::specs::Outcomes::after, crate::specs::Outcomes::Fails))]
pub(crate) fn it(alloc: Global, place: Place, around: Option<&Kind>) -> Result<Node, TypeError>
    ensures { Answers shown_node (after (defined place (codes "it") (shown_lent around.entry))
        (λ kind. Ok (node kind false (it place)))) result }
{
    let kind = it_kind(alloc, place, around)?;
    Ok(singular(kind, Form::It { place }))
}

fn singular(kind: Kind, form: Form) -> Node
    ensures { shown_node result ≡ node (shown_kind kind) false (shown_form form) }
{
    Node {
        kind,
        plural: false,
        form,
    }
}

pub(crate) fn held(alloc: Global, node: Node) -> Result<Option<Box<Node>>, AllocError>
    ensures { IfOk result (λ h. shown_held h ≡ a_node (shown_node node)) }
{
    Ok(Some(boxed(alloc, node)?))
}

fn boxed(alloc: Global, node: Node) -> Result<Box<Node>, AllocError>
    ensures { IfOk result (λ b. shown_node b.value ≡ shown_node node) }
{
    Ok(Box::new(alloc, node)?)
}

pub(crate) fn named(
    place: Place,
    headed: Headed,
    argument: Option<Box<Node>>,
    filter: Option<Box<Node>>,
    object: Option<Box<Node>>,
) -> Node
    ensures { shown_node result ≡ named_node place (shown_held argument) (shown_held object) (shown_headed headed) (shown_held filter) }
{
    Node {
        kind: headed.kind,
        plural: headed.plural,
        form: Form::Phrase {
            place,
            head: headed.head,
            argument,
            filter,
            object,
        },
    }
}

pub(crate) fn body(
    alloc: Global,
    place: Place,
    body: Node,
    filter: Option<Box<Node>>,
    object: Option<Box<Node>>,
) -> Result<Node, AllocError>
    ensures { IfOk result (λ n. shown_node n ≡ body_node place (shown_held object) (shown_node body) (shown_held filter)) }
{
    Ok(Node {
        kind: body.kind.copy()?,
        plural: body.plural || is_plural(&object),
        form: Form::Body {
            place,
            body: boxed(alloc, body)?,
            filter,
            object,
        },
    })
}

/// Whether there is an object, which is plural.
fn is_plural(held: &Option<Box<Node>>) -> bool
    ensures { result ≡ held_plural (shown_held held.now) }
{
    match held {
        Some(node) => node.plural,
        None => false,
    }
}

/// Casts of a first operand.
#[tactic(auto, unfolding(crate::specs::Outcomes::after, crate::specs::Outcomes::Fails), using(crate::proofs::Steps::no_memory))]
pub(crate) fn cast(alloc: Global, first: Node, list: &CastList) -> Result<Node, TypeError>
    ensures { Answers shown_node (casted (shown_node first) list.now) result }
{
    let done = casts(alloc, first.kind.copy()?, list)?;
    let first = boxed(alloc, first)?;
    let form = Form::Cast {
        first,
        casts: done.steps,
    };
    Ok(singular(done.kind, form))
}

/// A sign before its operand.
#[tactic(auto, unfolding(crate::specs::Outcomes::after, crate::specs::Outcomes::Fails), using(crate::proofs::Steps::no_memory))]
pub(crate) fn unary(
    alloc: Global,
    place: Place,
    sign: UnarySign,
    right: Node,
) -> Result<Node, TypeError>
    ensures { Answers shown_node (signed place sign (shown_node right)) result }
{
    let kind = signed_kind(alloc, place, sign, &right)?;
    let right = boxed(alloc, right)?;
    Ok(singular(kind, Form::Unary { place, sign, right }))
}

pub(crate) fn chain(alloc: Global, kind: Kind, first: Node, rest: Links) -> Result<Node, AllocError>
    ensures { IfOk result (λ n. shown_node n ≡ node (shown_kind kind) false (chain (shown_node first) (shown_links rest))) }
{
    let first = boxed(alloc, first)?;
    Ok(singular(kind, Form::Chain { first, rest }))
}

pub(crate) fn choice(
    alloc: Global,
    place: Place,
    test: Node,
    yes: Node,
    no: Node,
) -> Result<Node, AllocError>
    ensures { IfOk result (λ n. shown_node n ≡ choice_node place (shown_node test) (shown_node yes) (shown_node no)) }
{
    let test = boxed(alloc, test)?;
    let yes = boxed(alloc, yes)?;
    let no = boxed(alloc, no)?;
    conditional(place, test, yes, no)
}

fn conditional(
    place: Place,
    test: Box<Node>,
    yes: Box<Node>,
    no: Box<Node>,
) -> Result<Node, AllocError>
    ensures { IfOk result (λ n. shown_node n
        ≡ choice_node place (shown_node test.value) (shown_node yes.value) (shown_node no.value)) }
{
    Ok(Node {
        kind: yes.kind.copy()?,
        plural: yes.plural || no.plural,
        form: Form::If {
            place,
            test,
            yes,
            no,
        },
    })
}

/// The tuple of these parts.
#[tactic(auto, unfolding(crate::specs::Outcomes::after, crate::specs::Outcomes::Fails))]
pub(crate) fn tuple(alloc: Global, span: Place, parts: NodeList) -> Result<Node, TypeError>
    ensures { Answers shown_node (tupled span (shown_nodes parts)) result }
{
    Ok(Node {
        kind: tuple_kind(alloc, span, &parts)?,
        plural: parts.any_plural(),
        form: Form::Tuple { parts },
    })
}

/// The collection of these parts.
#[tactic(auto, unfolding(crate::specs::Outcomes::after, crate::specs::Outcomes::Fails))]
pub(crate) fn collection(span: Place, parts: NodeList) -> Result<Node, TypeError>
    ensures { Answers shown_node (collected span (shown_nodes parts)) result }
{
    Ok(Node {
        kind: shared_kind(span, &parts)?,
        plural: true,
        form: Form::Collection { parts },
    })
}
