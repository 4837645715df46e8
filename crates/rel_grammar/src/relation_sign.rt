// The signs of a relation.
ghost use Rattle.std.specs.Prelude.{◌≡◌, true, MatchOption, MatchResult};
ghost use Rattle.rel_grammar.specs.Machine.{read_does, read_is};
ghost use Rattle.rel_grammar.specs.Reads.{BeginsComparison, EndsSign, IsComparison, IsNoComparison, LacksComparison, LacksLast, LacksRelop, PartialFails, PartialReads, RelopFails, RelopReads};
ghost use Rattle.rel_grammar.specs.Shapes.{all_shaped, shaped_after};

use crate::ParseError;
use crate::peek::{after, place_at};
use crate::vocabulary::{Fixed, Helper, Reserved};
use rel_lexer::{BinarySign, Place, Sign, Token, TokenKind};

/// The place of a relation's sign from its first word to its last, the sign, and the tokens after it.
pub(crate) type Related<'a> = (Place, BinarySign, &'a [Token]);

/// The relation's sign that the tokens begin with, if they do.
pub(crate) fn read_relation_sign<'a>(
    rest: &'a [Token],
    end: u32,
) -> Result<Option<Related<'a>>, ParseError>
    ensures { MatchResult result
        (λ o. MatchOption o (LacksRelop (all_shaped rest.now))
        (λ r. RelopReads (all_shaped rest.now) r.0 r.1 (all_shaped r.2.now)))
        (λ e. RelopFails end (all_shaped rest.now) e) }
{
    if let Some(related) = comparison(rest) {
        return Ok(Some(related));
    }
    if let Some((place, next)) = after(rest, Fixed::Reserved(Reserved::Is)) {
        return Ok(Some(after_is(place, next, end)?));
    }
    if let Some((place, next)) = after(rest, Fixed::Reserved(Reserved::Contains)) {
        return Ok(Some((place, BinarySign::Contains, next)));
    }
    if let Some((place, next)) = after(rest, Fixed::Reserved(Reserved::Starts)) {
        return Ok(Some(last_word(place, next, end, Helper::With, BinarySign::StartsWith)?));
    }
    if let Some((place, next)) = after(rest, Fixed::Reserved(Reserved::Ends)) {
        return Ok(Some(last_word(place, next, end, Helper::With, BinarySign::EndsWith)?));
    }
    if let Some((place, next)) = after(rest, Fixed::Reserved(Reserved::Does)) {
        return Ok(Some(after_does(place, next, end)?));
    }
    Ok(None)
}

fn comparison<'a>(rest: &'a [Token]) -> Option<Related<'a>>
    ensures { MatchOption result (LacksComparison (all_shaped rest.now))
        (λ r. BeginsComparison (all_shaped rest.now) r.0 r.1 (all_shaped r.2.now)) }
{
    let (token, next) = rest.split_first()?;
    let sign = comparison_of(&token.kind)?;
    Some((token.place, sign, next))
}

fn comparison_of(kind: &TokenKind) -> Option<BinarySign>
    ensures { MatchOption result (IsNoComparison kind.now) (λ sign. IsComparison kind.now sign) }
{
    match kind {
        TokenKind::Sign(Sign::Equal) => Some(BinarySign::Equal),
        TokenKind::Sign(Sign::NotEqual) => Some(BinarySign::NotEqual),
        TokenKind::Sign(Sign::Less) => Some(BinarySign::Less),
        TokenKind::Sign(Sign::LessOrEqual) => Some(BinarySign::LessOrEqual),
        TokenKind::Sign(Sign::Greater) => Some(BinarySign::Greater),
        TokenKind::Sign(Sign::GreaterOrEqual) => Some(BinarySign::GreaterOrEqual),
        _ => None,
    }
}

/// What follows `is`.
fn after_is<'a>(first: Place, rest: &'a [Token], end: u32) -> Result<Related<'a>, ParseError>
    ensures { MatchResult result
        (λ r. PartialReads (read_is first) (shaped_after true rest.now) r.0 r.1 (all_shaped r.2.now))
        (λ e. PartialFails (read_is first) end (shaped_after true rest.now) e) }
{
    if let Some((negation, next)) = after(rest, Fixed::Reserved(Reserved::Not)) {
        let Some((_, last)) = after(next, Fixed::Reserved(Reserved::Contained)) else {
            let place = Place {
                from: first.from,
                to: negation.to,
            };
            return Ok((place, BinarySign::IsNot, next));
        };
        return last_word(first, last, end, Helper::By, BinarySign::IsNotContainedBy);
    }
    match after(rest, Fixed::Reserved(Reserved::Contained)) {
        Some((_, last)) => last_word(first, last, end, Helper::By, BinarySign::IsContainedBy),
        None => Ok((first, BinarySign::Is, rest)),
    }
}

/// What follows `does`.
fn after_does<'a>(first: Place, rest: &'a [Token], end: u32) -> Result<Related<'a>, ParseError>
    ensures { MatchResult result
        (λ r. PartialReads (read_does first) (all_shaped rest.now) r.0 r.1 (all_shaped r.2.now))
        (λ e. PartialFails (read_does first) end (all_shaped rest.now) e) }
{
    let Some((_, next)) = after(rest, Fixed::Reserved(Reserved::Not)) else {
        return Err(ParseError::NoParse(place_at(rest, end)));
    };
    if let Some((_, last)) = after(next, Fixed::Helper(Helper::Start)) {
        return last_word(first, last, end, Helper::With, BinarySign::DoesNotStartWith);
    }
    if let Some((_, last)) = after(next, Fixed::Helper(Helper::End)) {
        return last_word(first, last, end, Helper::With, BinarySign::DoesNotEndWith);
    }
    last_word(
        first,
        next,
        end,
        Helper::Contain,
        BinarySign::DoesNotContain,
    )
}

/// The last word of a sign, which has to be this one.
fn last_word<'a>(
    first: Place,
    rest: &'a [Token],
    end: u32,
    word: Helper,
    sign: BinarySign,
) -> Result<Related<'a>, ParseError>
    ensures { MatchResult result
        (λ r. EndsSign first word (all_shaped rest.now) r.0 (all_shaped r.2.now) × (r.1 ≡ sign))
        (λ e. LacksLast word end (all_shaped rest.now) e) }
{
    match after(rest, Fixed::Helper(word)) {
        Some((last, next)) => Ok((
            Place {
                from: first.from,
                to: last.to,
            },
            sign,
            next,
        )),
        None => Err(ParseError::NoParse(place_at(rest, end))),
    }
}
