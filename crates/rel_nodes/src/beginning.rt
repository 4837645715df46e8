ghost use Rattle.std.specs.Prelude.{◌≡◌, IfOk};
ghost use Rattle.rel_types.specs.Views.{shown_form, shown_held, shown_links, shown_node, shown_nodes};
ghost use Rattle.rel_value.specs.Plain.{words};
ghost use Rattle.rel_value.specs.Views.{shown_kind};
ghost use Rattle.rel_nodes.specs.Core.{Alike, chained_core, collected_core, constant_core, core_of, form_core, tuple_core};
ghost use Rattle.rel_nodes.specs.Nodes.{boxed_shape, shape};
ghost use Rattle.rel_nodes.specs.HeldParts.{AlikeHeld, part_shape};

use crate::arrows::{casted, linked};
use crate::held_parts::{argued, filtered, headed, over};
use crate::make::{on_heap, prefix, pure, singly, with_choice, with_one};
use crate::runs::{Joint, Run};
use crate::tuples::{Section, tuple_of};
use crate::{Node, Pure, span};
use rel_lexer::Text;
use rel_trace::Held;
use rel_types::{Form, Links, NodeList};
use rel_value::{Kind, Value};
use std::alloc::{AllocError, Global};

/// The most bytes of a text that a node gives.
const LONGEST: usize = 4_294_967_295;

/// The node of a part of a question. It is made whole before its first step, which comes after a `Node::reset`. The error is want
/// of memory; a text of 2^32 bytes or more, longer than any question, counts as such.
pub fn begin(alloc: Global, plan: &rel_types::Node) -> Result<Node, AllocError>
    ensures { IfOk result (λ n. Alike (shape n) (core_of (shown_node plan.now))) }
{
    let node = begun(alloc, plan)?;
    Ok(Box::into_inner(node))
}

#[cycle(begun)]
fn begun(alloc: Global, plan: &rel_types::Node) -> Result<Box<Node>, AllocError>
    ensures { IfOk result (λ n. Alike (boxed_shape n) (core_of (shown_node plan.now))) }
{
    begin_form(alloc, &plan.form, &plan.kind, plan.plural)
}

#[cycle(begun)]
fn begin_form(
    alloc: Global,
    form: &Form,
    kind: &Kind,
    plural: bool,
) -> Result<Box<Node>, AllocError>
    ensures { IfOk result (λ n. Alike (boxed_shape n) (form_core (shown_kind kind.now) plural (shown_form form.now))) }
{
    match form {
        Form::Number { number, .. } => {
            pure(alloc, Pure::Constant(Held::new(Value::Integer(*number))))
        }
        Form::Literal { text, .. } => literal(alloc, text),
        Form::It { .. } => pure(alloc, Pure::It),
        Form::Phrase {
            place,
            head,
            argument,
            filter,
            object,
        } => {
            let objects = held(alloc, object)?;
            let inside = headed(alloc, kind, *place, head, argument, objects)?;
            let arguments = held(alloc, argument)?;
            let values = argued(alloc, arguments, inside)?;
            let test = held(alloc, filter)?;
            let kept = filtered(alloc, *place, test, values)?;
            singly(alloc, plural, *place, kept)
        }
        Form::Body {
            place,
            body,
            filter,
            object,
        } => {
            let objects = held(alloc, object)?;
            let inside = begun(alloc, body)?;
            let values = over(alloc, *place, objects, inside)?;
            let test = held(alloc, filter)?;
            let kept = filtered(alloc, *place, test, values)?;
            singly(alloc, plural, *place, kept)
        }
        Form::Cast { first, casts } => {
            let part = begun(alloc, first)?;
            casted(alloc, casts, part)
        }
        Form::Unary { place, sign, right } => {
            let part = begun(alloc, right)?;
            with_one(alloc, part, prefix(*sign, *place))
        }
        Form::Chain { first, rest } => {
            let part = begun(alloc, first)?;
            chained(alloc, rest, part)
        }
        Form::If { test, yes, no, .. } => {
            let test = begun(alloc, test)?;
            let yes = begun(alloc, yes)?;
            let no = begun(alloc, no)?;
            with_choice(alloc, test, yes, no)
        }
        Form::Tuple { parts } => tupled(alloc, parts),
        Form::Collection { parts } => collected(alloc, parts),
    }
}

fn literal(alloc: Global, text: &Text) -> Result<Box<Node>, AllocError>
    ensures { IfOk result (λ n. boxed_shape n ≡ constant_core (words text.now)) }
{
    if text.as_str().len() > LONGEST {
        return Err(AllocError);
    }
    let text = text.copy()?;
    pure(alloc, Pure::Constant(Held::new(Value::Text(text))))
}

/// A part that may be there.
#[cycle(begun)]
fn held(alloc: Global, held: &Option<Box<rel_types::Node>>) -> Result<Option<Box<Node>>, AllocError>
    ensures { IfOk result (λ part. AlikeHeld (part_shape part) (shown_held held.now)) }
{
    match held {
        None => Ok(None),
        Some(node) => {
            let part = begun(alloc, node)?;
            Ok(Some(part))
        }
    }
}

/// The signs of a chain with their operands, from the left.
#[cycle(begun)]
fn chained(alloc: Global, links: &Links, first: Box<Node>) -> Result<Box<Node>, AllocError>
    ensures { IfOk result (λ n. Alike (boxed_shape n) (chained_core (shown_links links.now) (boxed_shape first))) }
{
    let mut run = Run::new(alloc, Joint::Left, first);
    for link in links.as_slice() {
        let right = begun(alloc, &link.right)?;
        run = linked(alloc, run, link.sign, link.place, right)?;
    }
    run.whole(alloc)
}

/// The tuples of some parts.
#[cycle(begun)]
fn tupled(alloc: Global, parts: &NodeList) -> Result<Box<Node>, AllocError>
    ensures { IfOk result (λ n. Alike (boxed_shape n) (tuple_core (shown_nodes parts.now))) }
{
    let mut sections = Vec::new(alloc);
    for part in parts.as_slice() {
        let node = begun(alloc, part)?;
        sections.push(Section {
            node,
            last: span(part),
        })?;
    }
    tuple_of(alloc, sections)
}

/// Some parts one after another.
#[cycle(begun)]
fn collected(alloc: Global, parts: &NodeList) -> Result<Box<Node>, AllocError>
    ensures { IfOk result (λ n. Alike (boxed_shape n) (collected_core (shown_nodes parts.now))) }
{
    let nothing = on_heap(alloc, Node::Nothing)?;
    let mut run = Run::new(alloc, Joint::Then, nothing);
    for part in parts.as_slice() {
        let next = begun(alloc, part)?;
        run = run.with(alloc, Joint::Then, next)?;
    }
    run.whole(alloc)
}
