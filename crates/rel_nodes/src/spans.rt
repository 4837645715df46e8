ghost use Rattle.std.specs.Prelude.{◌≡◌};
ghost use Rattle.rel_types.specs.Views.{shown_form, shown_held, shown_links, shown_node, shown_nodes};
ghost use Rattle.rel_nodes.specs.Spans.{begin_of, casts_end, end_of, form_begin, form_end, held_end, links_end, nodes_begin, nodes_end, span_of_node};

use rel_lexer::Place;
use rel_types::{CastSteps, Form, Links, Node, NodeList};

/// The place from the first token of a part of a question to its last, brackets of its own included. Takes no memory.
pub fn span(node: &Node) -> Place
    ensures { result ≡ span_of_node (shown_node node.now) }
{
    Place {
        from: begin_of(node),
        to: end_of(node),
    }
}

#[cycle(begins)]
fn begin_of(node: &Node) -> u32
    ensures { result ≡ begin_of (shown_node node.now) }
{
    form_begin(&node.form)
}

#[cycle(begins)]
fn form_begin(form: &Form) -> u32
    ensures { result ≡ form_begin (shown_form form.now) }
{
    match form {
        Form::Number { place, .. } => place.from,
        Form::Literal { place, .. } => place.from,
        Form::It { place } => place.from,
        Form::Phrase { place, .. } => place.from,
        Form::Body { place, .. } => place.from,
        Form::Unary { place, .. } => place.from,
        Form::If { place, .. } => place.from,
        Form::Cast { first, .. } => begin_of(first),
        Form::Chain { first, .. } => begin_of(first),
        Form::Tuple { parts } => nodes_begin(parts),
        Form::Collection { parts } => nodes_begin(parts),
    }
}

#[cycle(begins)]
fn nodes_begin(nodes: &NodeList) -> u32
    ensures { result ≡ nodes_begin (shown_nodes nodes.now) 0 }
{
    match nodes.as_slice() {
        [first, ..] => begin_of(first),
        [] => 0,
    }
}

#[cycle(ends)]
fn end_of(node: &Node) -> u32
    ensures { result ≡ end_of (shown_node node.now) }
{
    form_end(&node.form)
}

#[cycle(ends)]
fn form_end(form: &Form) -> u32
    ensures { result ≡ form_end (shown_form form.now) }
{
    match form {
        Form::Number { place, .. } => place.to,
        Form::Literal { place, .. } => place.to,
        Form::It { place } => place.to,
        Form::Phrase {
            place,
            filter,
            object,
            ..
        } => held_end(held_end(place.to, filter), object),
        Form::Body {
            place,
            filter,
            object,
            ..
        } => held_end(held_end(place.to, filter), object),
        Form::Cast { first, casts } => casts_end(end_of(first), casts),
        Form::Unary { right, .. } => end_of(right),
        Form::Chain { first, rest } => links_end(end_of(first), rest),
        Form::If { no, .. } => end_of(no),
        Form::Tuple { parts } => nodes_end(parts),
        Form::Collection { parts } => nodes_end(parts),
    }
}

/// Behind a filter or an object; where there is none, here.
#[cycle(ends)]
fn held_end(at: u32, held: &Option<Box<Node>>) -> u32
    ensures { result ≡ held_end at (shown_held held.now) }
{
    match held {
        Some(node) => end_of(node),
        None => at,
    }
}

fn casts_end(at: u32, casts: &CastSteps) -> u32
    ensures { result ≡ casts_end at casts.now }
{
    let mut at = at;
    for cast in casts.as_slice() {
        at = cast.place.to;
    }
    at
}

#[cycle(ends)]
fn links_end(at: u32, links: &Links) -> u32
    ensures { result ≡ links_end at (shown_links links.now) }
{
    match links.as_slice() {
        [.., last] => end_of(&last.right),
        [] => at,
    }
}

#[cycle(ends)]
fn nodes_end(nodes: &NodeList) -> u32
    ensures { result ≡ nodes_end (shown_nodes nodes.now) }
{
    match nodes.as_slice() {
        [.., last] => end_of(last),
        [] => 0,
    }
}
