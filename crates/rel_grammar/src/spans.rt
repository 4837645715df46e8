ghost use Rattle.std.specs.Prelude.{◌≡◌, ℕ, List};
ghost use Rattle.rel_grammar.specs.Grammar.{Question};
ghost use Rattle.rel_grammar.specs.Holding.{shown_held};
ghost use Rattle.rel_grammar.specs.Readings.{Reading, reading_marks, reading_tree};
ghost use Rattle.rel_grammar.specs.Sentences.{Sentence};
ghost use Rattle.rel_grammar.specs.Shapes.{Shaped};
ghost use Rattle.rel_grammar.specs.Spelling.{shapes_of};
ghost use Rattle.rel_grammar.specs.Spans.{Spans, begin_of, casts_end, end_of, held_end, links_end, parts_begin, parts_end, span_of_tree};
ghost use Rattle.rel_grammar.specs.Trees.{question_tree};
ghost use Rattle.rel_grammar.specs.Views.{shown, shown_links, shown_parts};

use crate::{CastList, LinkList, Tree, TreeList};
use rel_lexer::Place;

/// The place from the first token of a tree to its last, brackets of its own included. Takes no memory.
pub fn span(tree: &Tree) -> Place
    ensures { result ≡ span_of_tree (shown tree.now) }
{
    Place {
        from: begin_of(tree),
        to: end_of(tree),
    }
}

/// The span of the tree of a question goes from the question's first token to its last.
pub fn span_of_question()
    ensures { (tokens : List Shaped) (q : Question) → Sentence tokens q → Spans tokens (span_of_tree (question_tree q)) }
{}

/// The span of the tree of any part goes from the part's first token to its last, however deep it stands.
pub fn span_of_part()
    ensures { (depth : ℕ) (part : Reading) → Spans (shapes_of (reading_marks depth part)) (span_of_tree (reading_tree part)) }
{}

#[cycle(begins)]
fn begin_of(tree: &Tree) -> u32
    ensures { result ≡ begin_of (shown tree.now) }
{
    match tree {
        Tree::Number { place, .. } => place.from,
        Tree::Literal { place, .. } => place.from,
        Tree::It { place } => place.from,
        Tree::Phrase { place, .. } => place.from,
        Tree::Body { place, .. } => place.from,
        Tree::Unary { place, .. } => place.from,
        Tree::If { place, .. } => place.from,
        Tree::Cast { first, .. } => begin_of(first),
        Tree::Chain { first, .. } => begin_of(first),
        Tree::Tuple { parts } => parts_begin(parts),
        Tree::Collection { parts } => parts_begin(parts),
    }
}

#[cycle(begins)]
fn parts_begin(parts: &TreeList) -> u32
    ensures { result ≡ parts_begin (shown_parts parts.now) 0 }
{
    match parts.items.as_slice() {
        [first, ..] => begin_of(first),
        [] => 0,
    }
}

#[cycle(ends)]
fn end_of(tree: &Tree) -> u32
    ensures { result ≡ end_of (shown tree.now) }
{
    match tree {
        Tree::Number { place, .. } => place.to,
        Tree::Literal { place, .. } => place.to,
        Tree::It { place } => place.to,
        Tree::Phrase {
            place,
            filter,
            object,
            ..
        } => held_end(held_end(place.to, filter), object),
        Tree::Body {
            place,
            filter,
            object,
            ..
        } => held_end(held_end(place.to, filter), object),
        Tree::Cast { first, casts } => casts_end(end_of(first), casts),
        Tree::Unary { right, .. } => end_of(right),
        Tree::Chain { first, rest } => links_end(end_of(first), rest),
        Tree::If { no, .. } => end_of(no),
        Tree::Tuple { parts } => parts_end(parts),
        Tree::Collection { parts } => parts_end(parts),
    }
}

/// Behind a filter or an object; where there is none, here.
#[cycle(ends)]
fn held_end(at: u32, held: &Option<Box<Tree>>) -> u32
    ensures { result ≡ held_end at (shown_held held.now) }
{
    match held {
        Some(tree) => end_of(tree),
        None => at,
    }
}

fn casts_end(at: u32, casts: &CastList) -> u32
    ensures { result ≡ casts_end at casts.now }
{
    let mut at = at;
    for cast in casts.as_slice() {
        at = cast.place.to;
    }
    at
}

#[cycle(ends)]
fn links_end(at: u32, links: &LinkList) -> u32
    ensures { result ≡ links_end at (shown_links links.now) }
{
    match links.items.as_slice() {
        [.., last] => end_of(&last.right),
        [] => at,
    }
}

#[cycle(ends)]
fn parts_end(parts: &TreeList) -> u32
    ensures { result ≡ parts_end (shown_parts parts.now) }
{
    match parts.items.as_slice() {
        [.., last] => end_of(last),
        [] => 0,
    }
}
