// Reads a question by going down the grammar. Each function reads the part that the tokens begin with, around which
// there are so many brackets, signs, objects and `if`s.
ghost use Rattle.std.specs.Prelude.{◌≤◌, ◌∷◌, MatchResult};
ghost use Rattle.rel_grammar.specs.Reads.{ChainFails, ChainReads, ChoiceFails, ChoiceReads, CollectionFails, CollectionReads, PartFails, PartReads, TupleFails, TupleReads, UpToFails, UpToReads, shaped_at};
ghost use Rattle.rel_grammar.specs.Shapes.{all_shaped, is_is, reserved, shaped_after};
ghost use Rattle.rel_grammar.specs.Views.{shown};
ghost use Rattle.rel_grammar.specs.declared.level.Level.TheVariants.{Both, Product};
ghost use Rattle.rel_grammar.specs.declared.vocabulary.Reserved.TheVariants.{If};

use crate::heads::reference;
use crate::level::{Level, after_unary_sign};
use crate::peek::{after, place_at};
use crate::relation_sign::read_relation_sign;
use crate::vocabulary::{Fixed, Reserved};
use crate::words::casts;
use crate::{LinkList, ParseError, Tree, TreeList, make};
use rel_lexer::{Place, Sign, Token};
use std::alloc::Global;

/// The depth above which no token may stand.
pub(crate) const DEEPEST: u32 = 64;

/// The tree of a part, and the tokens after it.
pub(crate) type Read<'a> = (Tree, &'a [Token]);

#[cycle(parser)]
pub(crate) fn collection<'a>(
    alloc: Global,
    rest: &'a [Token],
    end: u32,
    depth: u32,
) -> Result<Read<'a>, ParseError>
    requires { depth ≤ 64 }
    ensures { MatchResult result
        (λ r. CollectionReads depth (all_shaped rest.now) (shown r.0) (all_shaped r.1.now))
        (λ e. CollectionFails depth end (all_shaped rest.now) e) }
{
    let (first, left) = tuple(alloc, rest, end, depth)?;
    let Some((_, mut next)) = after(left, Fixed::Sign(Sign::Semicolon)) else {
        return Ok((first, left));
    };
    let mut parts = TreeList::new(alloc);
    parts.push(first)?;
    loop {
        let (part, left) = tuple(alloc, next, end, depth)?;
        parts.push(part)?;
        match after(left, Fixed::Sign(Sign::Semicolon)) {
            Some((_, more)) => next = more,
            None => return Ok((make::collection(parts), left)),
        }
    }
}

#[cycle(parser)]
fn tuple<'a>(alloc: Global, rest: &'a [Token], end: u32, depth: u32) -> Result<Read<'a>, ParseError>
    requires { depth ≤ 64 }
    ensures { MatchResult result
        (λ r. TupleReads depth (all_shaped rest.now) (shown r.0) (all_shaped r.1.now))
        (λ e. TupleFails depth end (all_shaped rest.now) e) }
{
    let (first, left) = choice(alloc, rest, end, depth)?;
    let Some((_, mut next)) = after(left, Fixed::Sign(Sign::Comma)) else {
        return Ok((first, left));
    };
    let mut parts = TreeList::new(alloc);
    parts.push(first)?;
    loop {
        let (part, left) = choice(alloc, next, end, depth)?;
        parts.push(part)?;
        match after(left, Fixed::Sign(Sign::Comma)) {
            Some((_, more)) => next = more,
            None => return Ok((make::tuple(parts), left)),
        }
    }
}

#[cycle(parser)]
fn choice<'a>(
    alloc: Global,
    rest: &'a [Token],
    end: u32,
    depth: u32,
) -> Result<Read<'a>, ParseError>
    requires { depth ≤ 64 }
    ensures { MatchResult result
        (λ r. ChoiceReads depth (all_shaped rest.now) (shown r.0) (all_shaped r.1.now))
        (λ e. ChoiceFails depth end (all_shaped rest.now) e) }
{
    match after(rest, Fixed::Reserved(Reserved::If)) {
        Some((place, next)) => conditional(alloc, place, next, end, depth),
        None => chain(alloc, rest, end, depth, Level::Bar),
    }
}

/// What stands after an `if`, at this place.
#[cycle(parser)]
fn conditional<'a>(
    alloc: Global,
    place: Place,
    rest: &'a [Token],
    end: u32,
    depth: u32,
) -> Result<Read<'a>, ParseError>
    requires { depth ≤ 64 }
    ensures { MatchResult result
        (λ r. ChoiceReads depth (shaped_at (reserved If) place ∷ all_shaped rest.now) (shown r.0) (all_shaped r.1.now))
        (λ e. ChoiceFails depth end (shaped_at (reserved If) place ∷ all_shaped rest.now) e) }
{
    if depth == DEEPEST {
        return Err(ParseError::TooDeep(place));
    }
    let (test, next) = up_to(alloc, rest, end, depth + 1, Reserved::Then)?;
    let (yes, next) = up_to(alloc, next, end, depth + 1, Reserved::Else)?;
    let (no, left) = choice(alloc, next, end, depth + 1)?;
    Ok((make::conditional(alloc, place, test, yes, no)?, left))
}

/// A part and the word behind it, which has to be this one.
#[cycle(parser)]
fn up_to<'a>(
    alloc: Global,
    rest: &'a [Token],
    end: u32,
    depth: u32,
    word: Reserved,
) -> Result<Read<'a>, ParseError>
    requires { depth ≤ 64 }
    ensures { MatchResult result
        (λ r. UpToReads depth word (all_shaped rest.now) (shown r.0) (shaped_after (is_is (reserved word)) r.1.now))
        (λ e. UpToFails depth word end (all_shaped rest.now) e) }
{
    let (part, left) = collection(alloc, rest, end, depth)?;
    match after(left, Fixed::Reserved(word)) {
        Some((_, left)) => Ok((part, left)),
        None => Err(ParseError::NoParse(place_at(left, end))),
    }
}

#[cycle(parser)]
fn chain<'a>(
    alloc: Global,
    rest: &'a [Token],
    end: u32,
    depth: u32,
    level: Level,
) -> Result<Read<'a>, ParseError>
    requires { depth ≤ 64 }
    ensures { MatchResult result
        (λ r. ChainReads level depth (all_shaped rest.now) (shown r.0) (all_shaped r.1.now))
        (λ e. ChainFails level depth end (all_shaped rest.now) e) }
{
    let (first, left) = operand(alloc, rest, end, depth, level)?;
    let Some((mut place, mut sign, mut next)) = level.split_sign(left) else {
        return Ok((first, left));
    };
    let mut links = LinkList::new(alloc);
    loop {
        let (right, left) = operand(alloc, next, end, depth, level)?;
        links.push(make::link(place, sign, right))?;
        match level.split_sign(left) {
            Some((next_place, next_sign, more)) => {
                place = next_place;
                sign = next_sign;
                next = more;
            }
            None => return Ok((make::chain(alloc, first, links)?, left)),
        }
    }
}

/// What stands between the operators of a level.
#[cycle(parser)]
fn operand<'a>(
    alloc: Global,
    rest: &'a [Token],
    end: u32,
    depth: u32,
    level: Level,
) -> Result<Read<'a>, ParseError>
    requires { depth ≤ 64 }
    ensures { MatchResult result
        (λ r. PartReads level depth (all_shaped rest.now) (shown r.0) (all_shaped r.1.now))
        (λ e. PartFails level depth end (all_shaped rest.now) e) }
{
    match level {
        Level::Bar => chain(alloc, rest, end, depth, Level::Either),
        Level::Either => chain(alloc, rest, end, depth, Level::Both),
        Level::Both => relation(alloc, rest, end, depth),
        Level::Sum => chain(alloc, rest, end, depth, Level::Product),
        Level::Product => unary(alloc, rest, end, depth),
    }
}

#[cycle(parser)]
fn relation<'a>(
    alloc: Global,
    rest: &'a [Token],
    end: u32,
    depth: u32,
) -> Result<Read<'a>, ParseError>
    requires { depth ≤ 64 }
    ensures { MatchResult result
        (λ r. PartReads Both depth (all_shaped rest.now) (shown r.0) (all_shaped r.1.now))
        (λ e. PartFails Both depth end (all_shaped rest.now) e) }
{
    let (first, left) = chain(alloc, rest, end, depth, Level::Sum)?;
    let sign = read_relation_sign(left, end)?;
    match sign {
        None => Ok((first, left)),
        Some((place, sign, next)) => {
            let (right, left) = chain(alloc, next, end, depth, Level::Sum)?;
            Ok((make::related(alloc, first, place, sign, right)?, left))
        }
    }
}

#[cycle(parser)]
fn unary<'a>(alloc: Global, rest: &'a [Token], end: u32, depth: u32) -> Result<Read<'a>, ParseError>
    requires { depth ≤ 64 }
    ensures { MatchResult result
        (λ r. PartReads Product depth (all_shaped rest.now) (shown r.0) (all_shaped r.1.now))
        (λ e. PartFails Product depth end (all_shaped rest.now) e) }
{
    match after_unary_sign(rest) {
        Some((place, sign, next)) => {
            if depth == DEEPEST {
                return Err(ParseError::TooDeep(place));
            }
            let (right, left) = unary(alloc, next, end, depth + 1)?;
            Ok((make::unary(alloc, place, sign, right)?, left))
        }
        None => {
            let (first, left) = reference(alloc, rest, end, depth)?;
            casts(alloc, first, left, end)
        }
    }
}
