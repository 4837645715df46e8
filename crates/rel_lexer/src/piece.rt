ghost use Rattle.std.specs.Prelude.{◌≡◌, ◌≢◌, false, ◌+◌, ◌≤◌, ◌<◌, ◌∷◌, length};
ghost use Rattle.std.specs.Char.{is_ascii_digit};
ghost use Rattle.rel_lexer.specs.Bytes.{NotNext, begins_word, is_blank};
ghost use Rattle.rel_lexer.specs.Reads.{Reads};

use crate::bytes::{after, begins_word, is_blank};
use crate::comment::read_comment;
use crate::number::read_number;
use crate::sign::split_sign;
use crate::string::read_string;
use crate::word::read_word;
use crate::{LexError, Place, TokenKind};
use std::alloc::Global;

/// What a piece was read as: the kind of its token, where it gives one, and the bytes after it.
#[derive(Drop)]
pub(crate) struct Taken<'a> {
    pub kind: Option<TokenKind>,
    pub rest: &'a [u8],
}

/// Reads the piece that the bytes begin with, at this byte of the question.
pub(crate) fn read_piece(alloc: Global, at: u32, bytes: &[u8]) -> Result<Taken<'_>, LexError>
    requires some { 0 < length bytes.now }
    requires within { at + length bytes.now ≤ 65536 }
    ensures { Reads at bytes.now result }
{
    let Some((first, more)) = bytes.split_first() else {
        unreachable!()
    };
    if is_blank(*first) {
        return Ok(Taken {
            kind: None,
            rest: more,
        });
    }
    if begins_word(*first) {
        return read_word(alloc, bytes);
    }
    if first.is_ascii_digit() {
        return read_number(at, bytes);
    }
    if *first == b'"' {
        return read_string(alloc, at, more);
    }
    if *first == b'/'
        && let Some(inner) = after(b'*', more)
    {
        return read_comment(at, inner);
    }
    read_sign(at, *first, more)
}

/// Reads a sign.
fn read_sign(at: u32, first: u8, more: &[u8]) -> Result<Taken<'_>, LexError>
    requires within { at < 65536 }
    requires no_blank { is_blank first ≡ false }
    requires no_word { begins_word first ≡ false }
    requires no_number { is_ascii_digit first ≡ false }
    requires no_string { first ≢ 34 }
    requires no_comment { first ≡ 47 → NotNext 42 more.now }
    ensures { Reads at (first ∷ more.now) result }
{
    match split_sign(first, more) {
        Some((sign, rest)) => Ok(Taken {
            kind: Some(TokenKind::Sign(sign)),
            rest,
        }),
        None => Err(LexError::BadByte(Place::of_bytes(at, 1))),
    }
}
