// Trees as questions.
ghost use Rattle.std.specs.Prelude.{◌≡◌, ◌≤◌, ℕ, List, IfOk, length};
ghost use Rattle.rel_grammar.specs.Answers.{IsTreeOf};
ghost use Rattle.rel_print.specs.Bare.{ReadsAs};
ghost use Rattle.rel_grammar.specs.Holding.{shown_held};
ghost use Rattle.rel_grammar.specs.Views.{shown, shown_links, shown_parts};
ghost use Rattle.rel_print.specs.Written.{is_single, written, written_argument, written_binary, written_casts, written_filter, written_head, written_links, written_object, written_parts, written_unary};

use crate::pen::Pen;
use rel_grammar::{CastList, LinkList, Tree, TreeList};
use rel_lexer::{BinarySign, Sign, Text, UnarySign};
use std::alloc::{AllocError, Global};

/// A text that reads as this tree, but for the places. Blanks, brackets and escapes stand only where they are needed.
pub fn print(alloc: Global, tree: &Tree) -> Result<Text, AllocError>
    // Of the tree of a text it reads as the same tree but for places.
    ensures reads { IfOk result (λ text. (source : List ℕ) → IsTreeOf source (shown tree.now) → ReadsAs text (shown tree.now)) }
    // It is no longer than any text that has the tree.
    ensures no_longer { IfOk result (λ text. (source : List ℕ) → IsTreeOf source (shown tree.now) → length text ≤ length source) }
{
    let mut pen = Pen::new(alloc)?;
    write_tree(tree, &mut pen)?;
    Ok(pen.text)
}

#[cycle(print)]
fn write_tree(tree: &Tree, pen: &mut Pen) -> Result<(), AllocError>
    ensures { IfOk result (λ _. pen.new ≡ written (shown tree.now) pen.old) }
{
    match tree {
        Tree::Number { number, .. } => pen.number(*number),
        Tree::Literal { text, .. } => pen.string(text.as_str()),
        Tree::It { .. } => pen.words("it"),
        Tree::Phrase {
            words,
            argument,
            filter,
            object,
            ..
        } => {
            pen.words(words.as_str())?;
            write_argument(argument, pen)?;
            write_filter(filter, pen)?;
            write_object(object, pen)
        }
        Tree::Body {
            body,
            filter,
            object,
            ..
        } => {
            write_head(body, filter.is_some() || object.is_some(), pen)?;
            write_filter(filter, pen)?;
            write_object(object, pen)
        }
        Tree::Cast { first, casts } => {
            write_tree(first, pen)?;
            write_casts(casts, pen)
        }
        Tree::Unary { sign, right, .. } => {
            write_unary(*sign, pen)?;
            write_tree(right, pen)
        }
        Tree::Chain { first, rest } => {
            write_tree(first, pen)?;
            write_links(rest, pen)
        }
        Tree::If { test, yes, no, .. } => {
            pen.words("if")?;
            write_tree(test, pen)?;
            pen.words("then")?;
            write_tree(yes, pen)?;
            pen.words("else")?;
            write_tree(no, pen)
        }
        Tree::Tuple { parts } => write_parts(parts, Sign::Comma, pen),
        Tree::Collection { parts } => write_parts(parts, Sign::Semicolon, pen),
    }
}

#[cycle(print)]
fn write_argument(held: &Option<Box<Tree>>, pen: &mut Pen) -> Result<(), AllocError>
    ensures { IfOk result (λ _. pen.new ≡ written_argument (shown_held held.now) pen.old) }
{
    match held {
        Some(tree) => write_tree(tree, pen),
        None => Ok(()),
    }
}

#[cycle(print)]
fn write_filter(held: &Option<Box<Tree>>, pen: &mut Pen) -> Result<(), AllocError>
    ensures { IfOk result (λ _. pen.new ≡ written_filter (shown_held held.now) pen.old) }
{
    match held {
        Some(tree) => {
            pen.words("whose")?;
            write_tree(tree, pen)
        }
        None => Ok(()),
    }
}

#[cycle(print)]
fn write_object(held: &Option<Box<Tree>>, pen: &mut Pen) -> Result<(), AllocError>
    ensures { IfOk result (λ _. pen.new ≡ written_object (shown_held held.now) pen.old) }
{
    match held {
        Some(tree) => {
            pen.words("of")?;
            write_tree(tree, pen)
        }
        None => Ok(()),
    }
}

/// The body of a head, in brackets unless it is a number, a string or `it` that a filter or an object follows.
#[cycle(print)]
fn write_head(body: &Tree, followed: bool, pen: &mut Pen) -> Result<(), AllocError>
    ensures { IfOk result (λ _. pen.new ≡ written_head followed (shown body.now) pen.old) }
{
    if followed && is_single(body) {
        return write_tree(body, pen);
    }
    pen.sign(Sign::OpenBracket)?;
    write_tree(body, pen)?;
    pen.sign(Sign::CloseBracket)
}

/// Whether a tree is a number, a string or `it`.
fn is_single(tree: &Tree) -> bool
    ensures { result ≡ is_single (shown tree.now) }
{
    match tree {
        Tree::Number { .. } => true,
        Tree::Literal { .. } => true,
        Tree::It { .. } => true,
        _ => false,
    }
}

fn write_casts(casts: &CastList, pen: &mut Pen) -> Result<(), AllocError>
    ensures { IfOk result (λ _. pen.new ≡ written_casts casts.now pen.old) }
{
    for cast in casts.as_slice() {
        pen.words("as")?;
        pen.words(cast.words.as_str())?;
    }
    Ok(())
}

#[cycle(print)]
fn write_links(links: &LinkList, pen: &mut Pen) -> Result<(), AllocError>
    ensures { IfOk result (λ _. pen.new ≡ written_links (shown_links links.now) pen.old) }
{
    for link in links.as_slice() {
        write_binary(link.sign, pen)?;
        write_tree(&link.right, pen)?;
    }
    Ok(())
}

/// The parts, with a sign between them.
#[cycle(print)]
fn write_parts(parts: &TreeList, sign: Sign, pen: &mut Pen) -> Result<(), AllocError>
    ensures { IfOk result (λ _. pen.new ≡ written_parts sign (shown_parts parts.now) pen.old) }
{
    let mut between = false;
    for part in parts.as_slice() {
        if between {
            pen.sign(sign)?;
        }
        write_tree(part, pen)?;
        between = true;
    }
    Ok(())
}

fn write_unary(sign: UnarySign, pen: &mut Pen) -> Result<(), AllocError>
    ensures { IfOk result (λ _. pen.new ≡ written_unary sign pen.old) }
{
    match sign {
        UnarySign::Minus => pen.sign(Sign::Minus),
        _ => pen.words(sign.words()),
    }
}

fn write_binary(sign: BinarySign, pen: &mut Pen) -> Result<(), AllocError>
    ensures { IfOk result (λ _. pen.new ≡ written_binary sign pen.old) }
{
    match sign {
        BinarySign::Bar => pen.sign(Sign::Bar),
        BinarySign::Equal => pen.sign(Sign::Equal),
        BinarySign::NotEqual => pen.sign(Sign::NotEqual),
        BinarySign::Less => pen.sign(Sign::Less),
        BinarySign::LessOrEqual => pen.sign(Sign::LessOrEqual),
        BinarySign::Greater => pen.sign(Sign::Greater),
        BinarySign::GreaterOrEqual => pen.sign(Sign::GreaterOrEqual),
        BinarySign::Plus => pen.sign(Sign::Plus),
        BinarySign::Minus => pen.sign(Sign::Minus),
        BinarySign::Join => pen.sign(Sign::Ampersand),
        BinarySign::Times => pen.sign(Sign::Times),
        BinarySign::Over => pen.sign(Sign::Slash),
        _ => pen.words(sign.words()),
    }
}
