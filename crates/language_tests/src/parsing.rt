// A row worked by hand from the grammar in docs/LANGUAGE.md. How the rules bind, and what is refused and where, stands in
// examples/grammar.qna.
use rel_grammar::{BinarySign, CastList, LinkList, Tree, parse, span};
use rel_lexer::{Place, tokens};
use std::alloc::{AllocError, Global};
use std::test::Fail;

const QUESTION: &[u8] = b"a as b; 1 + 2 ";

fn is(place: Place, from: u32, to: u32) -> bool {
    place.from == from && place.to == to
}

fn is_number(tree: &Tree, wanted: i64, from: u32, to: u32) -> bool {
    match tree {
        Tree::Number { place, number } => *number == wanted && is(*place, from, to),
        _ => false,
    }
}

fn is_a(tree: &Tree) -> bool {
    match tree {
        Tree::Phrase { place, words, .. } => words.as_str() == "a" && is(*place, 0, 1),
        _ => false,
    }
}

fn are_as_b(casts: &CastList) -> bool {
    let [cast] = casts.as_slice() else {
        return false;
    };
    cast.words.as_str() == "b" && is(cast.place, 5, 6)
}

fn are_plus_two(links: &LinkList) -> bool {
    let [link] = links.as_slice() else {
        return false;
    };
    matches!(link.sign, BinarySign::Plus)
        && is(link.place, 10, 11)
        && is_number(&link.right, 2, 12, 13)
}

fn is_cast(tree: &Tree) -> bool {
    match tree {
        Tree::Cast { first, casts } => is_a(first) && are_as_b(casts),
        _ => false,
    }
}

fn is_sum(tree: &Tree) -> bool {
    match tree {
        Tree::Chain { first, rest } => is_number(first, 1, 8, 9) && are_plus_two(rest),
        _ => false,
    }
}

/// Whether this is the tree of the question above.
fn is_its_tree(tree: &Tree) -> bool {
    let Tree::Collection { parts } = tree else {
        return false;
    };
    let [first, second] = parts.as_slice() else {
        return false;
    };
    is_cast(first) && is_sum(second)
}

/// Whether a copy of this tree is that, too.
fn is_copied(tree: &Tree) -> Result<bool, AllocError> {
    let copy = tree.copy()?;
    Ok(is_its_tree(&copy))
}

/// Whether all that is asked of this tree is answered as for the question above.
fn is_right(tree: &Tree) -> Result<bool, AllocError> {
    Ok(is_its_tree(tree) && is(span(tree), 0, 13) && is_copied(tree)?)
}

/// The tree of the question above, where it has one.
fn its_tree(alloc: Global) -> Option<Tree> {
    let tokens = tokens(alloc, QUESTION).ok()?;
    parse(alloc, &tokens).ok()
}

fn is_read(alloc: Global) -> Result<bool, AllocError> {
    match its_tree(alloc) {
        Some(tree) => is_right(&tree),
        None => Ok(false),
    }
}

#[test]
fn a_question_has_its_tree(rt: HostRuntime) -> Result<(), Fail> {
    assert!(rt; is_read(rt.alloc())?);
    Ok(())
}
