// What stands between the operators: a value, a name or a part in brackets, with its filter and its object.
ghost use Rattle.std.specs.Prelude.{◌≡◌, ◌≤◌, ◌∷◌, MatchResult};
ghost use Rattle.rel_grammar.specs.Reads.{BracketsFail, BracketsRead, PrimaryReads, ReferenceFails, ReferenceReads, TermReads, shaped_at};
ghost use Rattle.rel_grammar.specs.Shapes.{AnyWord, all_shaped, word as word_shape, word_spelling};
ghost use Rattle.rel_grammar.specs.Views.{shown};

use crate::constant::{constant, value};
use crate::parser::{DEEPEST, Read, collection};
use crate::peek::{after, after_word, place_at};
use crate::vocabulary::{Fixed, Reserved};
use crate::words::read_words;
use crate::{ParseError, make};
use rel_lexer::{Place, Sign, Text, Token};
use std::alloc::Global;

#[cycle(parser)]
pub(crate) fn reference<'a>(
    alloc: Global,
    rest: &'a [Token],
    end: u32,
    depth: u32,
) -> Result<Read<'a>, ParseError>
    requires { depth ≤ 65 }
    ensures { MatchResult result
        (λ r. ReferenceReads depth (all_shaped rest.now) (shown r.0) (all_shaped r.1.now))
        (λ e. ReferenceFails depth end (all_shaped rest.now) e) }
{
    let (head, left) = term(alloc, rest, end, depth)?;
    match after(left, Fixed::Reserved(Reserved::Of)) {
        Some((_, next)) => {
            let (object, left) = reference(alloc, next, end, depth + 1)?;
            Ok((make::with_object(alloc, head, object)?, left))
        }
        None => Ok((head, left)),
    }
}

#[cycle(parser)]
fn term<'a>(alloc: Global, rest: &'a [Token], end: u32, depth: u32) -> Result<Read<'a>, ParseError>
    requires { depth ≤ 65 }
    ensures { MatchResult result
        (λ r. TermReads depth (all_shaped rest.now) (shown r.0) (all_shaped r.1.now))
        (λ e. ReferenceFails depth end (all_shaped rest.now) e) }
{
    let (head, left) = primary(alloc, rest, end, depth)?;
    let Some((_, next)) = after(left, Fixed::Reserved(Reserved::Whose)) else {
        return Ok((head, left));
    };
    let Some((open, next)) = after(next, Fixed::Sign(Sign::OpenBracket)) else {
        return Err(ParseError::NoParse(place_at(next, end)));
    };
    let (filter, left) = bracketed(alloc, open, next, end, depth)?;
    Ok((make::with_filter(alloc, head, filter)?, left))
}

#[cycle(parser)]
fn primary<'a>(
    alloc: Global,
    rest: &'a [Token],
    end: u32,
    depth: u32,
) -> Result<Read<'a>, ParseError>
    requires { depth ≤ 65 }
    ensures { MatchResult result
        (λ r. PrimaryReads depth (all_shaped rest.now) (shown r.0) (all_shaped r.1.now))
        (λ e. ReferenceFails depth end (all_shaped rest.now) e) }
{
    if let Some((open, next)) = after(rest, Fixed::Sign(Sign::OpenBracket)) {
        return bracketed(alloc, open, next, end, depth);
    }
    if let Some((place, word, next)) = after_word(rest) {
        if depth > DEEPEST {
            return Err(ParseError::TooDeep(place));
        }
        return phrase(alloc, place, word, next, end, depth);
    }
    let Some(read) = value(rest)? else {
        return Err(ParseError::NoParse(place_at(rest, end)));
    };
    if depth > DEEPEST {
        return Err(ParseError::TooDeep(place_at(rest, end)));
    }
    Ok(read)
}

/// A name after its first word, with its argument, if one follows.
#[cycle(parser)]
fn phrase<'a>(
    alloc: Global,
    place: Place,
    first: &Text,
    rest: &'a [Token],
    end: u32,
    depth: u32,
) -> Result<Read<'a>, ParseError>
    requires { depth ≤ 64 }
    ensures { MatchResult result
        (λ r. (w : AnyWord) → first.now ≡ word_spelling w
        → PrimaryReads depth (shaped_at (word_shape w) place ∷ all_shaped rest.now) (shown r.0) (all_shaped r.1.now))
        (λ e. (w : AnyWord) → first.now ≡ word_spelling w
        → ReferenceFails depth end (shaped_at (word_shape w) place ∷ all_shaped rest.now) e) }
{
    let (text, place, left) = read_words(first, place, rest)?;
    if let Some((open, next)) = after(left, Fixed::Sign(Sign::OpenBracket)) {
        let (argument, left) = bracketed(alloc, open, next, end, depth)?;
        return Ok((make::with_argument(alloc, place, text, argument)?, left));
    }
    match constant(left)? {
        Some((argument, left)) => { Ok((make::with_argument(alloc, place, text, argument)?, left)) }
        None => Ok((make::named(place, text), left)),
    }
}

/// What stands after an opening bracket, and the closing one.
#[cycle(parser)]
fn bracketed<'a>(
    alloc: Global,
    from: Place,
    rest: &'a [Token],
    end: u32,
    depth: u32,
) -> Result<Read<'a>, ParseError>
    requires { depth ≤ 65 }
    ensures { MatchResult result
        (λ r. BracketsRead depth from (all_shaped rest.now) (shown r.0) (all_shaped r.1.now))
        (λ e. BracketsFail depth from end (all_shaped rest.now) e) }
{
    if depth >= DEEPEST {
        return Err(ParseError::TooDeep(from));
    }
    let (inner, left) = collection(alloc, rest, end, depth + 1)?;
    match after(left, Fixed::Sign(Sign::CloseBracket)) {
        Some((close, left)) => {
            let place = Place {
                from: from.from,
                to: close.to,
            };
            Ok((make::enclosed(alloc, place, inner)?, left))
        }
        None => Err(ParseError::NoParse(place_at(left, end))),
    }
}
