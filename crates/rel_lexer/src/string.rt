ghost use Rattle.std.specs.Prelude.{◌≡◌, ◌+◌, ◌*◌, ◌≤◌, ◌<◌, ◌∷◌, length, false, true, IfOk, MatchOption};
ghost use Rattle.std.specs.Char.{digit_value, is_ascii_hexdigit};
ghost use Rattle.rel_lexer.specs.Bytes.{decoded};
ghost use Rattle.rel_lexer.specs.Reads.{Decodes, Reads};

use crate::bytes::{Run, after, split_run};
use crate::piece::Taken;
use crate::{LexError, Place, Text, TokenKind};
use std::alloc::{AllocError, Global};

/// Reads the string whose quote stands at this byte, before these bytes.
pub(crate) fn read_string(alloc: Global, at: u32, bytes: &[u8]) -> Result<Taken<'_>, LexError>
    requires { at + 1 + length bytes.now ≤ 65536 }
    ensures { Reads at (34 ∷ bytes.now) result }
{
    let (raw, rest) = split_run(Run::String, bytes);
    match after(b'"', rest) {
        Some(rest) => Ok(Taken {
            kind: Some(TokenKind::Text(decoded_text(alloc, at, raw)?)),
            rest,
        }),
        None => Err(LexError::UnclosedString(Place::of_bytes(at, 1 + bytes.len()))),
    }
}

/// The text of a string that begins at this byte, of the bytes between its quotes.
fn decoded_text(alloc: Global, at: u32, raw: &[u8]) -> Result<Text, LexError>
    requires { at + 2 + length raw.now ≤ 65536 }
    ensures { Decodes at raw.now result }
{
    if let Err(error) = str::from_utf8(raw) {
        let bad = at + 1 + error.valid_up_to() as u32;
        return Err(LexError::BadByte(Place::of_bytes(bad, 1)));
    }
    match Text::from_utf8(decode(alloc, raw)?) {
        Some(text) => Ok(text),
        None => Err(LexError::BadEscape(Place::of_bytes(at, raw.len() + 2))),
    }
}

/// The bytes that those between the quotes of a string stand for.
fn decode(alloc: Global, raw: &[u8]) -> Result<Vec<u8>, AllocError>
    ensures { IfOk result (λ bytes. bytes.items ≡ decoded raw.now) }
{
    let mut bytes = Vec::new(alloc);
    let mut rest = raw;
    while let Some((first, more)) = rest.split_first() {
        match escape(*first, more) {
            Some((byte, after)) => {
                bytes.push(byte)?;
                rest = after;
            }
            None => {
                bytes.push(*first)?;
                rest = more;
            }
        }
    }
    Ok(bytes)
}

/// The byte that `%` and two hexadecimal digits stand for, where these bytes are that, and what follows them.
fn escape(first: u8, more: &[u8]) -> Option<(u8, &[u8])>
    ensures { MatchOption result (decoded (first ∷ more.now) ≡ first ∷ decoded more.now)
        (λ r. (decoded (first ∷ more.now) ≡ r.0 ∷ decoded r.1.now) × (length r.1.now < length more.now)) }
{
    if first != b'%' {
        return None;
    }
    let (high, tail) = more.split_first()?;
    let (low, tail) = tail.split_first()?;
    let high = hex_digit(*high)?;
    let low = hex_digit(*low)?;
    Some((16 * high + low, tail))
}

fn hex_digit(byte: u8) -> Option<u8>
    ensures { MatchOption result (is_ascii_hexdigit byte ≡ false)
        (λ v. (is_ascii_hexdigit byte ≡ true) × (v ≡ digit_value byte) × (v < 16)) }
{
    match byte {
        b'0'..=b'9' => Some(byte - b'0'),
        b'A'..=b'F' => Some(byte - b'A' + 10),
        b'a'..=b'f' => Some(byte - b'a' + 10),
        _ => None,
    }
}
