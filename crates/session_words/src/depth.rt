// Phrases that would stand too deep as what they become.
ghost use Rattle.std.specs.Prelude.{◌≡◌};
ghost use Rattle.std.specs.Option.{option_or};
ghost use Rattle.rel_grammar.specs.Holding.{shown_held};
ghost use Rattle.rel_grammar.specs.Views.{shown, shown_links, shown_parts};
ghost use Rattle.session_words.specs.Depths.{adds_folder, too_deep};
ghost use Rattle.session_words.specs.Inside.{first_held, first_in, first_in_links, first_in_parts, place_if_deep};
ghost use Rattle.session_words.specs.Replaced.{rewriting_of};

use crate::rewriting::rewriting_of;
use rel_grammar::{LinkList, Tree, TreeList};
use rel_lexer::{Place, Text};

/// The depth above which no token of a question may stand.
const DEEPEST: u32 = 64;

/// The place of the first phrase of a tree that is too deep, if there is one. It takes no memory.
pub fn too_deep(tree: &Tree) -> Option<Place>
    ensures { result ≡ too_deep 0 (shown tree.now) }
{
    first_in(tree, DEEPEST)
}

/// The same of a tree that has room for tokens so many levels deeper, here and below.
#[cycle(depth)]
fn first_in(tree: &Tree, room: u32) -> Option<Place>
    ensures { result ≡ first_in room (shown tree.now) }
{
    let inside = room.saturating_sub(1);
    match tree {
        Tree::Number { .. } => None,
        Tree::Literal { .. } => None,
        Tree::It { .. } => None,
        Tree::Phrase {
            place,
            words,
            argument,
            filter,
            object,
        } => place_if_deep(*place, words, object, room).or(first_of(
            first_held(argument, room),
            first_held(filter, room),
            first_held(object, inside),
        )),
        Tree::Body {
            body,
            filter,
            object,
            ..
        } => first_of(
            first_in(body, inside),
            first_held(filter, room),
            first_held(object, inside),
        ),
        Tree::Cast { first, .. } => first_in(first, room),
        Tree::Unary { right, .. } => first_in(right, inside),
        Tree::Chain { first, rest } => first_in(first, room).or(first_in_links(rest, room)),
        Tree::If { test, yes, no, .. } => first_of(
            first_in(test, inside),
            first_in(yes, inside),
            first_in(no, inside),
        ),
        Tree::Tuple { parts } => first_in_parts(parts, room),
        Tree::Collection { parts } => first_in_parts(parts, room),
    }
}

#[cycle(depth)]
fn first_held(held: &Option<Box<Tree>>, room: u32) -> Option<Place>
    ensures { result ≡ first_held room (shown_held held.now) }
{
    match held {
        Some(tree) => first_in(tree, room),
        None => None,
    }
}

#[cycle(depth)]
fn first_in_links(links: &LinkList, room: u32) -> Option<Place>
    ensures { result ≡ first_in_links room (shown_links links.now) }
{
    for link in links.as_slice() {
        if let Some(place) = first_in(&link.right, room) {
            return Some(place);
        }
    }
    None
}

#[cycle(depth)]
fn first_in_parts(parts: &TreeList, room: u32) -> Option<Place>
    ensures { result ≡ first_in_parts room (shown_parts parts.now) }
{
    for tree in parts.as_slice() {
        if let Some(place) = first_in(tree, room) {
            return Some(place);
        }
    }
    None
}

/// The first of three, if one of them is there.
fn first_of(first: Option<Place>, second: Option<Place>, third: Option<Place>) -> Option<Place>
    ensures { result ≡ option_or first (option_or second third) }
{
    first.or(second.or(third))
}

/// The place of a phrase of these words and with this object, where it is too deep itself.
fn place_if_deep(place: Place, words: &Text, object: &Option<Box<Tree>>, room: u32) -> Option<Place>
    ensures { result ≡ place_if_deep room place words.now (shown_held object.now) }
{
    if room > 0 {
        return None;
    }
    if !adds_folder(words, object) {
        return None;
    }
    Some(place)
}

/// Whether a phrase of these words and with this object gets a folder as its object.
fn adds_folder(words: &Text, object: &Option<Box<Tree>>) -> bool
    ensures { result ≡ adds_folder (shown_held object.now) (rewriting_of words.now) }
{
    if object.is_some() {
        return false;
    }
    match rewriting_of(words.as_str()) {
        Some(rewriting) => rewriting.is_in_folder(),
        None => false,
    }
}
