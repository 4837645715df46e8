// The operators of a chain, and those before one operand.
ghost use Rattle.std.specs.Prelude.{MatchOption};
ghost use Rattle.rel_grammar.specs.Reads.{LacksSign, LacksUnary, SplitsSign, SplitsUnary};
ghost use Rattle.rel_grammar.specs.Shapes.{all_shaped};
ghost use Rattle.rel_grammar.specs.declared.level.Level.TheVariants.{Product, Sum};

use crate::peek::after;
use crate::vocabulary::{Fixed, Reserved};
use rel_lexer::{BinarySign, Place, Sign, Token, UnarySign};

/// The rules whose operators are read from the left, from the loosest to the tightest.
#[derive(Clone, Copy)]
pub(crate) enum Level {
    /// `|`
    Bar,
    /// `or`
    Either,
    /// `and`
    Both,
    /// `+`, `-` and `&`
    Sum,
    /// `*`, `/` and `mod`
    Product,
}

impl Level {
    /// The operator of this rule that the tokens begin with, its place, and the tokens after it.
    pub(crate) fn split_sign(self, rest: &[Token]) -> Option<(Place, BinarySign, &[Token])>
        ensures { MatchOption result (LacksSign self (all_shaped rest.now))
            (λ r. SplitsSign self (all_shaped rest.now) r.0 r.1 (all_shaped r.2.now)) }
    {
        match self {
            Level::Bar => {
                let (place, left) = after(rest, Fixed::Sign(Sign::Bar))?;
                Some((place, BinarySign::Bar, left))
            }
            Level::Either => {
                let (place, left) = after(rest, Fixed::Reserved(Reserved::Or))?;
                Some((place, BinarySign::Or, left))
            }
            Level::Both => {
                let (place, left) = after(rest, Fixed::Reserved(Reserved::And))?;
                Some((place, BinarySign::And, left))
            }
            Level::Sum => sum_sign(rest),
            Level::Product => product_sign(rest),
        }
    }
}

fn sum_sign(rest: &[Token]) -> Option<(Place, BinarySign, &[Token])>
    ensures { MatchOption result (LacksSign Sum (all_shaped rest.now))
        (λ r. SplitsSign Sum (all_shaped rest.now) r.0 r.1 (all_shaped r.2.now)) }
{
    if let Some((place, left)) = after(rest, Fixed::Sign(Sign::Plus)) {
        return Some((place, BinarySign::Plus, left));
    }
    if let Some((place, left)) = after(rest, Fixed::Sign(Sign::Minus)) {
        return Some((place, BinarySign::Minus, left));
    }
    match after(rest, Fixed::Sign(Sign::Ampersand)) {
        Some((place, left)) => Some((place, BinarySign::Join, left)),
        None => None,
    }
}

fn product_sign(rest: &[Token]) -> Option<(Place, BinarySign, &[Token])>
    ensures { MatchOption result (LacksSign Product (all_shaped rest.now))
        (λ r. SplitsSign Product (all_shaped rest.now) r.0 r.1 (all_shaped r.2.now)) }
{
    if let Some((place, left)) = after(rest, Fixed::Sign(Sign::Times)) {
        return Some((place, BinarySign::Times, left));
    }
    if let Some((place, left)) = after(rest, Fixed::Sign(Sign::Slash)) {
        return Some((place, BinarySign::Over, left));
    }
    match after(rest, Fixed::Reserved(Reserved::Mod)) {
        Some((place, left)) => Some((place, BinarySign::Mod, left)),
        None => None,
    }
}

/// The operator before one operand that the tokens begin with, its place, and the tokens after it.
pub(crate) fn after_unary_sign(rest: &[Token]) -> Option<(Place, UnarySign, &[Token])>
    ensures { MatchOption result (LacksUnary (all_shaped rest.now))
        (λ r. SplitsUnary (all_shaped rest.now) r.0 r.1 (all_shaped r.2.now)) }
{
    if let Some((place, next)) = after(rest, Fixed::Reserved(Reserved::Not)) {
        return Some((place, UnarySign::Not, next));
    }
    if let Some((place, next)) = after(rest, Fixed::Reserved(Reserved::Exists)) {
        return Some((place, UnarySign::Exists, next));
    }
    if let Some((place, next)) = after(rest, Fixed::Reserved(Reserved::Exist)) {
        return Some((place, UnarySign::Exist, next));
    }
    match after(rest, Fixed::Sign(Sign::Minus)) {
        Some((place, next)) => Some((place, UnarySign::Minus, next)),
        None => None,
    }
}
