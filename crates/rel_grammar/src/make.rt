// Trees from their parts.
ghost use Rattle.std.specs.Prelude.{◌≡◌, IfOk};
ghost use Rattle.rel_grammar.specs.Reads.{as_head, own_to, put_filter, put_object};
ghost use Rattle.rel_grammar.specs.Trees.{body, cast, chain, collection, conditional, it, literal, more_links, no_links, no_tree, a_tree, numeral, phrase, tuple, unary, with_filter, with_object};
ghost use Rattle.rel_grammar.specs.Views.{shown, shown_link, shown_links, shown_parts};

use crate::{CastList, Link2, LinkList, Tree, TreeList};
use rel_lexer::{BinarySign, Place, Text, UnarySign};
use std::alloc::{AllocError, Global};

pub(crate) fn numeral(place: Place, number: i64) -> Tree
    ensures { shown result ≡ numeral place number }
{
    Tree::Number { place, number }
}

pub(crate) fn literal(place: Place, text: Text) -> Tree
    ensures { shown result ≡ literal place text }
{
    Tree::Literal { place, text }
}

pub(crate) fn it(place: Place) -> Tree
    ensures { shown result ≡ it place }
{
    Tree::It { place }
}

/// A name without filter and object.
pub(crate) fn named(place: Place, words: Text) -> Tree
    ensures { shown result ≡ phrase place words no_tree no_tree no_tree }
{
    Tree::Phrase {
        place,
        words,
        argument: None,
        filter: None,
        object: None,
    }
}

/// Where the part ends that has this tree, if it is a constant or in brackets.
fn own_end(tree: &Tree) -> u32
    ensures { result ≡ own_to (shown tree.now) }
{
    match tree {
        Tree::Number { place, .. } => place.to,
        Tree::Literal { place, .. } => place.to,
        Tree::Body { place, .. } => place.to,
        _ => 0,
    }
}

/// A name at a place with its argument, without filter and object.
pub(crate) fn with_argument(
    alloc: Global,
    place: Place,
    words: Text,
    argument: Tree,
) -> Result<Tree, AllocError>
    ensures { IfOk result (λ t. shown t ≡ phrase (record { from = place.from; to = own_to (shown argument) }) words
        (a_tree (shown argument)) no_tree no_tree) }
{
    let place = Place {
        from: place.from,
        to: own_end(&argument),
    };
    Ok(Tree::Phrase {
        place,
        words,
        argument: Some(Box::new(alloc, argument)?),
        filter: None,
        object: None,
    })
}

/// What stands in brackets, at a place that includes them.
pub(crate) fn enclosed(alloc: Global, place: Place, inner: Tree) -> Result<Tree, AllocError>
    ensures { IfOk result (λ t. shown t ≡ body place (shown inner) no_tree no_tree) }
{
    Ok(Tree::Body {
        place,
        body: Box::new(alloc, inner)?,
        filter: None,
        object: None,
    })
}

/// A number, string or `it` as the body of a head; any other head as it is.
fn as_head(alloc: Global, tree: Tree) -> Result<Tree, AllocError>
    ensures { IfOk result (λ t. shown t ≡ as_head (shown tree)) }
{
    match tree {
        Tree::Number { place, number } => enclosed(alloc, place, numeral(place, number)),
        Tree::Literal { place, text } => enclosed(alloc, place, literal(place, text)),
        Tree::It { place } => enclosed(alloc, place, it(place)),
        other => Ok(other),
    }
}

/// A head with its filter.
pub(crate) fn with_filter(alloc: Global, head: Tree, filter: Tree) -> Result<Tree, AllocError>
    ensures { IfOk result (λ t. shown t ≡ with_filter (shown head) (shown filter)) }
{
    let head = as_head(alloc, head)?;
    let filter = Box::new(alloc, filter)?;
    Ok(put_filter(head, filter))
}

fn put_filter(head: Tree, filter: Box<Tree>) -> Tree
    ensures { shown result ≡ put_filter (shown head) (shown filter.value) }
{
    match head {
        Tree::Phrase {
            place,
            words,
            argument,
            object,
            ..
        } => Tree::Phrase {
            place,
            words,
            argument,
            filter: Some(filter),
            object,
        },
        Tree::Body {
            place,
            body,
            object,
            ..
        } => Tree::Body {
            place,
            body,
            filter: Some(filter),
            object,
        },
        other => other,
    }
}

/// A head with its object.
pub(crate) fn with_object(alloc: Global, head: Tree, object: Tree) -> Result<Tree, AllocError>
    ensures { IfOk result (λ t. shown t ≡ with_object (shown head) (shown object)) }
{
    let head = as_head(alloc, head)?;
    let object = Box::new(alloc, object)?;
    Ok(put_object(head, object))
}

fn put_object(head: Tree, object: Box<Tree>) -> Tree
    ensures { shown result ≡ put_object (shown head) (shown object.value) }
{
    match head {
        Tree::Phrase {
            place,
            words,
            argument,
            filter,
            ..
        } => Tree::Phrase {
            place,
            words,
            argument,
            filter,
            object: Some(object),
        },
        Tree::Body {
            place,
            body,
            filter,
            ..
        } => Tree::Body {
            place,
            body,
            filter,
            object: Some(object),
        },
        other => other,
    }
}

pub(crate) fn cast(alloc: Global, first: Tree, casts: CastList) -> Result<Tree, AllocError>
    ensures { IfOk result (λ t. shown t ≡ cast (shown first) casts) }
{
    Ok(Tree::Cast {
        first: Box::new(alloc, first)?,
        casts,
    })
}

pub(crate) fn unary(
    alloc: Global,
    place: Place,
    sign: UnarySign,
    right: Tree,
) -> Result<Tree, AllocError>
    ensures { IfOk result (λ t. shown t ≡ unary place sign (shown right)) }
{
    Ok(Tree::Unary {
        place,
        sign,
        right: Box::new(alloc, right)?,
    })
}

pub(crate) fn link(place: Place, sign: BinarySign, right: Tree) -> Link2
    ensures { shown_link result ≡ (place, sign, shown right) }
{
    Link2 { place, sign, right }
}

pub(crate) fn chain(alloc: Global, first: Tree, rest: LinkList) -> Result<Tree, AllocError>
    ensures { IfOk result (λ t. shown t ≡ chain (shown first) (shown_links rest)) }
{
    Ok(Tree::Chain {
        first: Box::new(alloc, first)?,
        rest,
    })
}

/// A chain of one operator.
pub(crate) fn related(
    alloc: Global,
    first: Tree,
    place: Place,
    sign: BinarySign,
    right: Tree,
) -> Result<Tree, AllocError>
    ensures { IfOk result (λ t. shown t ≡ chain (shown first) (more_links no_links place sign (shown right))) }
{
    let mut links = LinkList::new(alloc);
    links.push(link(place, sign, right))?;
    chain(alloc, first, links)
}

pub(crate) fn conditional(
    alloc: Global,
    place: Place,
    test: Tree,
    yes: Tree,
    no: Tree,
) -> Result<Tree, AllocError>
    ensures { IfOk result (λ t. shown t ≡ conditional place (shown test) (shown yes) (shown no)) }
{
    let (test, yes) = boxed(alloc, test, yes)?;
    Ok(Tree::If {
        place,
        test,
        yes,
        no: Box::new(alloc, no)?,
    })
}

fn boxed(alloc: Global, first: Tree, second: Tree) -> Result<(Box<Tree>, Box<Tree>), AllocError>
    ensures { IfOk result (λ both. (both.0.value ≡ first) × (both.1.value ≡ second)) }
{
    let first = Box::new(alloc, first)?;
    let second = Box::new(alloc, second)?;
    Ok((first, second))
}

pub(crate) fn tuple(parts: TreeList) -> Tree
    ensures { shown result ≡ tuple (shown_parts parts) }
{
    Tree::Tuple { parts }
}

pub(crate) fn collection(parts: TreeList) -> Tree
    ensures { shown result ≡ collection (shown_parts parts) }
{
    Tree::Collection { parts }
}
