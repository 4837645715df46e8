// Names, and the casts that follow what they cast.
ghost use Rattle.std.specs.Prelude.{◌≡◌, IfOk, MatchOption, MatchResult};
ghost use Rattle.rel_grammar.specs.Grammar.{Reference};
ghost use Rattle.rel_grammar.specs.Reads.{CastReads, CastsEnd, CastsFail, CastsRead, Lacks, LacksCast, WordsEnd, WordsRead};
ghost use Rattle.rel_grammar.specs.Shapes.{AnyWord, all_shaped, reserved, word_spelling};
ghost use Rattle.rel_grammar.specs.Trees.{reference_tree};
ghost use Rattle.rel_grammar.specs.Views.{shown};
ghost use Rattle.rel_grammar.specs.declared.vocabulary.Reserved.TheVariants.{As};

use crate::parser::Read;
use crate::peek::{after, after_word, place_at};
use crate::vocabulary::{Fixed, Reserved};
use crate::{CastList, CastTo, ParseError, Tree, make};
use rel_lexer::{Place, Text, Token};
use std::alloc::{AllocError, Global};

/// Words that stand beside one another, joined by one space; the place from the first to the last; the tokens after.
pub(crate) type Run<'a> = (Text, Place, &'a [Token]);

/// Reads the words that go on after the first one.
pub(crate) fn read_words<'a>(
    first: &Text,
    place: Place,
    rest: &'a [Token],
) -> Result<Run<'a>, AllocError>
    ensures { IfOk result (λ r. WordsEnd (all_shaped r.2.now) × ((w : AnyWord) → first.now ≡ word_spelling w
        → WordsRead w place (all_shaped rest.now) r.0 r.1 (all_shaped r.2.now))) }
{
    let mut text = first.copy()?;
    let mut place = place;
    let mut left = rest;
    while let Some((last, word, more)) = after_word(left) {
        text.push(" ")?;
        text.push(word.as_str())?;
        place = Place {
            from: place.from,
            to: last.to,
        };
        left = more;
    }
    Ok((text, place, left))
}

/// What is cast, with the casts that follow it, if there are any.
pub(crate) fn casts<'a>(
    alloc: Global,
    first: Tree,
    rest: &'a [Token],
    end: u32,
) -> Result<Read<'a>, ParseError>
    ensures { MatchResult result
        (λ r. (x : Reference) → shown first ≡ reference_tree x
        → CastsRead x (all_shaped rest.now) (shown r.0) (all_shaped r.1.now))
        (λ e. (x : Reference) → CastsFail x end (all_shaped rest.now) e) }
{
    match read_casts(alloc, rest, end)? {
        Some((list, left)) => Ok((make::cast(alloc, first, list)?, left)),
        None => Ok((first, rest)),
    }
}

/// The casts that the tokens begin with, if there are any.
fn read_casts<'a>(
    alloc: Global,
    rest: &'a [Token],
    end: u32,
) -> Result<Option<(CastList, &'a [Token])>, ParseError>
    ensures { MatchResult result
        (λ o. MatchOption o (Lacks (reserved As) (all_shaped rest.now))
        (λ r. (x : Reference) → CastsEnd x (all_shaped rest.now) r.0 (all_shaped r.1.now)))
        (λ e. (x : Reference) → CastsFail x end (all_shaped rest.now) e) }
{
    let Some((_, mut next)) = after(rest, Fixed::Reserved(Reserved::As)) else {
        return Ok(None);
    };
    let mut list = CastList::new(alloc);
    loop {
        let (cast, left) = read_cast(next, end)?;
        list.push(cast)?;
        match after(left, Fixed::Reserved(Reserved::As)) {
            Some((_, more)) => next = more,
            None => return Ok(Some((list, left))),
        }
    }
}

/// One cast after its `as`.
fn read_cast<'a>(rest: &'a [Token], end: u32) -> Result<(CastTo, &'a [Token]), ParseError>
    ensures { MatchResult result
        (λ r. CastReads (all_shaped rest.now) r.0 (all_shaped r.1.now))
        (λ e. LacksCast end (all_shaped rest.now) e) }
{
    let Some((place, word, more)) = after_word(rest) else {
        return Err(ParseError::NoParse(place_at(rest, end)));
    };
    let (words, place, left) = read_words(word, place, more)?;
    Ok((CastTo { place, words }, left))
}
