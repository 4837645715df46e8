ghost use Rattle.std.specs.Prelude.{◌≡◌, ◌∷◌, ◌++◌, MatchOption};
ghost use Rattle.rel_lexer.specs.Bytes.{NotNext};
ghost use Rattle.rel_lexer.specs.Signs.{BeginsNoSign, IsWhole, spelling};

use crate::bytes::after;

/// A sign of a question, in the order in which the language lists them.
#[derive(Clone, Copy, PartialEq, Eq)]
pub enum Sign {
    /// `(`
    OpenBracket,
    /// `)`
    CloseBracket,
    /// `;`
    Semicolon,
    /// `,`
    Comma,
    /// `+`
    Plus,
    /// `-`
    Minus,
    /// `*`
    Times,
    /// `/`
    Slash,
    /// `&`
    Ampersand,
    /// `=`
    Equal,
    /// `!=`
    NotEqual,
    /// `<`
    Less,
    /// `<=`
    LessOrEqual,
    /// `>`
    Greater,
    /// `>=`
    GreaterOrEqual,
    /// `|`
    Bar,
}

/// The sign, the longest, that the byte and those after it begin with, and the bytes after the sign.
pub(crate) fn split_sign(first: u8, more: &[u8]) -> Option<(Sign, &[u8])>
    requires { first ≡ 47 → NotNext 42 more.now }
    ensures { MatchOption result (BeginsNoSign (first ∷ more.now))
        (λ r. (first ∷ more.now ≡ spelling r.0 ++ r.1.now) × IsWhole r.0 r.1.now) }
{
    match first {
        b'(' => Some((Sign::OpenBracket, more)),
        b')' => Some((Sign::CloseBracket, more)),
        b';' => Some((Sign::Semicolon, more)),
        b',' => Some((Sign::Comma, more)),
        b'+' => Some((Sign::Plus, more)),
        b'-' => Some((Sign::Minus, more)),
        b'*' => Some((Sign::Times, more)),
        b'/' => Some((Sign::Slash, more)),
        b'&' => Some((Sign::Ampersand, more)),
        b'=' => Some((Sign::Equal, more)),
        b'|' => Some((Sign::Bar, more)),
        b'!' => Some((Sign::NotEqual, after(b'=', more)?)),
        b'<' => match after(b'=', more) {
            Some(rest) => Some((Sign::LessOrEqual, rest)),
            None => Some((Sign::Less, more)),
        },
        b'>' => match after(b'=', more) {
            Some(rest) => Some((Sign::GreaterOrEqual, rest)),
            None => Some((Sign::Greater, more)),
        },
        _ => None,
    }
}
