// Values of one token.
ghost use Rattle.std.specs.Prelude.{IfOk, MatchOption};
ghost use Rattle.rel_grammar.specs.Reads.{ConstantReads, LacksConstant, LacksSingle, SingleReads};
ghost use Rattle.rel_grammar.specs.Shapes.{all_shaped};
ghost use Rattle.rel_grammar.specs.Views.{shown};

use crate::parser::Read;
use crate::peek::{after, after_number, after_string};
use crate::vocabulary::{Fixed, Reserved};
use crate::{Tree, make};
use rel_lexer::Token;
use std::alloc::AllocError;

/// A number, a string or `it`.
pub(crate) fn value<'a>(rest: &'a [Token]) -> Result<Option<Read<'a>>, AllocError>
    ensures { IfOk result (λ o. MatchOption o (LacksSingle (all_shaped rest.now))
        (λ r. SingleReads (all_shaped rest.now) (shown r.0) (all_shaped r.1.now))) }
{
    if let Some((place, next)) = after(rest, Fixed::Reserved(Reserved::It)) {
        return Ok(Some((make::it(place), next)));
    }
    constant(rest)
}

/// A number or a string.
pub(crate) fn constant<'a>(rest: &'a [Token]) -> Result<Option<Read<'a>>, AllocError>
    ensures { IfOk result (λ o. MatchOption o (LacksConstant (all_shaped rest.now))
        (λ r. ConstantReads (all_shaped rest.now) (shown r.0) (all_shaped r.1.now))) }
{
    if let Some((place, number, next)) = after_number(rest) {
        return Ok(Some((Tree::Number { place, number }, next)));
    }
    match after_string(rest) {
        Some((place, text, next)) => Ok(Some((make::literal(place, text.copy()?), next))),
        None => Ok(None),
    }
}
