ghost use Rattle.std.specs.Prelude.{◌≡◌, IfOk};

use crate::{Place, Sign, Text};
use std::alloc::AllocError;

/// What a token is.
#[derive(Drop)]
pub enum TokenKind {
    /// In lower case.
    Word(Text),
    /// Without its quotes, and with its escapes decoded.
    Text(Text),
    /// From 0 on.
    Number(i64),
    /// A sign.
    Sign(Sign),
}

/// A token, and the place of its bytes.
#[derive(Drop)]
pub struct Token {
    pub kind: TokenKind,
    pub place: Place,
}

impl TokenKind {
    /// The same kind of token once more.
    pub fn copy(&self) -> Result<TokenKind, AllocError>
        ensures { IfOk result (λ kind. kind ≡ self.now) }
    {
        match self {
            TokenKind::Word(word) => Ok(TokenKind::Word(word.copy()?)),
            TokenKind::Text(text) => Ok(TokenKind::Text(text.copy()?)),
            TokenKind::Number(number) => Ok(TokenKind::Number(*number)),
            TokenKind::Sign(sign) => Ok(TokenKind::Sign(*sign)),
        }
    }
}

impl Token {
    /// The same token once more.
    pub fn copy(&self) -> Result<Token, AllocError>
        ensures { IfOk result (λ token. token ≡ self.now) }
    {
        Ok(Token {
            kind: self.kind.copy()?,
            place: self.place,
        })
    }
}
