// The next token, without reading on.
ghost use Rattle.std.specs.Prelude.{◌≡◌, ℕ, ℤ, List, Bool, FitsSigned, IfSome, MatchOption};
ghost use Rattle.std.specs.Int.{w64};
ghost use Rattle.rel_grammar.specs.Answers.{place_of};
ghost use Rattle.rel_grammar.specs.Reads.{Begins, BeginsWord, Lacks, WordsEnd, fixed_kind};
ghost use Rattle.rel_grammar.specs.Shapes.{all_shaped, is_is, kind_after, number, shaped_after, string};

use crate::vocabulary::{Fixed, free_word};
use rel_lexer::{Place, Text, Token, TokenKind};

/// The place of the next token, or of the end of the text.
pub(crate) fn place_at(rest: &[Token], end: u32) -> Place
    ensures { (behind : Bool) → result ≡ place_of end (shaped_after behind rest.now) }
{
    match rest.first() {
        Some(token) => token.place,
        None => Place { from: end, to: end },
    }
}

/// The place of this token, and the tokens after it, where the tokens begin with it.
pub(crate) fn after(rest: &[Token], fixed: Fixed) -> Option<(Place, &[Token])>
    ensures { (behind : Bool) → MatchOption result
        (Lacks (kind_after behind (fixed_kind fixed)) (shaped_after behind rest.now))
        (λ r. Begins (kind_after behind (fixed_kind fixed)) (shaped_after behind rest.now) r.0
        (shaped_after (is_is (fixed_kind fixed)) r.1.now)) }
{
    let (token, left) = rest.split_first()?;
    if fixed.is(&token.kind) {
        Some((token.place, left))
    } else {
        None
    }
}

/// The place and the text of a word that may stand in a name, and the tokens after it.
pub(crate) fn after_word(rest: &[Token]) -> Option<(Place, &Text, &[Token])>
    ensures { MatchOption result (WordsEnd (all_shaped rest.now))
        (λ r. BeginsWord (all_shaped rest.now) r.0 r.1.now (all_shaped r.2.now)) }
{
    let (token, left) = rest.split_first()?;
    let text = free_word(&token.kind)?;
    Some((token.place, text, left))
}

/// The place and the value of a number, and the tokens after it.
pub(crate) fn after_number(rest: &[Token]) -> Option<(Place, i64, &[Token])>
    ensures next { MatchOption result ((n : ℤ) → Lacks (number n) (all_shaped rest.now))
        (λ r. Begins (number r.1) (all_shaped rest.now) r.0 (all_shaped r.2.now)) }
    ensures fits { IfSome result (λ r. FitsSigned w64 r.1) }
{
    let (token, left) = rest.split_first()?;
    match &token.kind {
        TokenKind::Number(number) => Some((token.place, *number, left)),
        _ => None,
    }
}

/// The place and the text of a string, and the tokens after it.
pub(crate) fn after_string(rest: &[Token]) -> Option<(Place, &Text, &[Token])>
    ensures { MatchOption result ((t : List ℕ) → Lacks (string t) (all_shaped rest.now))
        (λ r. Begins (string r.1.now) (all_shaped rest.now) r.0 (all_shaped r.2.now)) }
{
    let (token, left) = rest.split_first()?;
    match &token.kind {
        TokenKind::Text(text) => Some((token.place, text, left)),
        _ => None,
    }
}
