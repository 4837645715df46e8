ghost use Rattle.std.specs.Prelude.{◌≡◌, ◌+◌, ◌≤◌, ◌<◌, length, MatchOption};
ghost use Rattle.std.specs.Char.{is_ascii_digit};
ghost use Rattle.rel_lexer.specs.Bytes.{number_of};
ghost use Rattle.rel_lexer.specs.Pieces.{Each};
ghost use Rattle.rel_lexer.specs.Reads.{Begins, Reads};

use crate::bytes::{Run, split_run};
use crate::piece::Taken;
use crate::{LexError, Place, TokenKind};

/// The greatest number.
const GREATEST: u64 = i64::MAX as u64;

/// Reads the number that the bytes begin with.
pub(crate) fn read_number(at: u32, bytes: &[u8]) -> Result<Taken<'_>, LexError>
    requires begins { Begins is_ascii_digit bytes.now }
    requires within { at + length bytes.now ≤ 65536 }
    ensures { Reads at bytes.now result }
{
    let (digits, rest) = split_run(Run::Number, bytes);
    match number_of(digits) {
        Some(number) => Ok(Taken {
            kind: Some(TokenKind::Number(number as i64)),
            rest,
        }),
        None => Err(LexError::BadNumber(Place::of_bytes(at, digits.len()))),
    }
}

/// The number of decimal digits, where it is none above the greatest.
fn number_of(digits: &[u8]) -> Option<u64>
    requires { Each is_ascii_digit digits.now }
    ensures { MatchOption result (9223372036854775807 < number_of digits.now)
        (λ n. (n ≡ number_of digits.now) × (n ≤ 9223372036854775807)) }
{
    let mut number: u64 = 0;
    let mut rest = digits;
    while let Some((digit, more)) = rest.split_first() {
        let digit = u64::from(*digit - b'0');
        if number > (GREATEST - digit) / 10 {
            return None;
        }
        number = 10 * number + digit;
        rest = more;
    }
    Some(number)
}
