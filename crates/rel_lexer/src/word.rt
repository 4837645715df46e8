ghost use Rattle.std.specs.Prelude.{◌≡◌, ℕ, map, IfOk};
ghost use Rattle.std.specs.Char.{to_ascii_lowercase};
ghost use Rattle.rel_lexer.specs.Bytes.{begins_word, is_in_word};
ghost use Rattle.rel_lexer.specs.Pieces.{Each};
ghost use Rattle.rel_lexer.specs.Reads.{Begins, Reads};

use crate::bytes::{Run, split_run};
use crate::piece::Taken;
use crate::{LexError, Text, TokenKind};
use std::alloc::{AllocError, Global};

/// Reads the word that the bytes begin with.
pub(crate) fn read_word(alloc: Global, bytes: &[u8]) -> Result<Taken<'_>, LexError>
    requires { Begins begins_word bytes.now }
    ensures { (at : ℕ) → Reads at bytes.now result }
{
    let (word, rest) = split_run(Run::Word, bytes);
    Ok(Taken {
        kind: Some(TokenKind::Word(lower_case(alloc, word)?)),
        rest,
    })
}

fn lower_case(alloc: Global, word: &[u8]) -> Result<Text, AllocError>
    requires { Each is_in_word word.now }
    ensures { IfOk result (λ text. text ≡ map to_ascii_lowercase word.now) }
{
    match str::from_utf8(word) {
        Ok(word) => Ok(Text::from_string(word.to_ascii_lowercase(alloc)?)),
        Err(_) => unreachable!(),
    }
}
