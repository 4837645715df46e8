ghost use Rattle.std.specs.Prelude.{◌≡◌, IfOk};

use crate::Token;
use std::alloc::AllocError;
use std::marker::Model;

/// Tokens in their order. Contracts see the list of them.
#[derive(Drop)]
pub struct TokenList {
    items: Vec<Token>,
}

impl Model for TokenList {
    ghost use Rattle.std.specs.Prelude.{List};
    ghost use Rattle.rel_lexer.specs.declared.token.Token.{Token};

    ghost Value = { List Token };

    ghost view = { λ t. t.items.items };
}

impl TokenList {
    /// The list of these tokens. It takes no memory.
    pub fn from_vec(tokens: Vec<Token>) -> TokenList
        ensures { result ≡ tokens.items }
    {
        TokenList { items: tokens }
    }

    /// The tokens, to be changed. It takes no memory.
    pub fn into_vec(self) -> Vec<Token>
        ensures { result.items ≡ self }
    {
        self.items
    }

    /// The tokens.
    pub fn as_slice(&self) -> &[Token]
        ensures { result.now ≡ self.now }
    {
        self.items.as_slice()
    }

    /// The same tokens once more.
    pub fn copy(&self) -> Result<TokenList, AllocError>
        ensures { IfOk result (λ tokens. tokens ≡ self.now) }
    {
        let mut copies = Vec::new(*self.items.allocator());
        for token in self.items.as_slice() {
            copies.push(token.copy()?)?;
        }
        Ok(TokenList::from_vec(copies))
    }
}

/// The tokens of a text, and the number of its bytes, blanks and comments at its end included.
#[derive(Drop)]
pub struct Tokens {
    pub list: TokenList,
    pub end: u32,
}

impl Tokens {
    /// The same tokens once more.
    pub fn copy(&self) -> Result<Tokens, AllocError>
        ensures { IfOk result (λ tokens. tokens ≡ self.now) }
    {
        Ok(Tokens {
            list: self.list.copy()?,
            end: self.end,
        })
    }
}
