ghost use Rattle.std.specs.Prelude.{◌≡◌, ◌++◌, IfOk, IfErr, OnOk};
ghost use Rattle.rel_lexer.specs.Tokens.{AreInOrder, AreTokens, IsRefused, token_at};

use crate::piece::read_piece;
use crate::{LexError, Place, Token, TokenKind, TokenList, Tokens};
use std::alloc::{AllocError, Global};

/// The most bytes of a question.
const MOST_BYTES: usize = 65536;

/// The tokens of a question's text, or its first fault from the left. A text of more than 65,536 bytes is too long,
/// whatever is in it.
pub fn tokens(alloc: Global, text: &[u8]) -> Result<Tokens, LexError>
    ensures tokens { IfOk result (λ tokens. AreTokens text.now tokens) }
    ensures in_order { IfOk result (λ tokens. AreInOrder 0 tokens.list tokens.end) }
    ensures refusal { IfErr result (λ error. IsRefused text.now error) }
{
    if text.len() > MOST_BYTES {
        return Err(LexError::TooLong);
    }
    let mut list = Vec::new(alloc);
    let mut rest = text;
    while !rest.is_empty() {
        let at = (text.len() - rest.len()) as u32;
        let taken = read_piece(alloc, at, rest)?;
        let place = Place::of_bytes(at, rest.len() - taken.rest.len());
        push_token(&mut list, taken.kind, place)?;
        rest = taken.rest;
    }
    Ok(Tokens {
        list: TokenList::from_vec(list),
        end: text.len() as u32,
    })
}

fn push_token(
    list: &mut Vec<Token>,
    kind: Option<TokenKind>,
    place: Place,
) -> Result<(), AllocError>
    ensures { OnOk result (list.new.items ≡ list.old.items ++ token_at kind place) }
{
    if let Some(kind) = kind {
        list.push(Token { kind, place })?;
    }
    Ok(())
}
