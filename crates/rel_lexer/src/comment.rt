ghost use Rattle.std.specs.Prelude.{◌≡◌, ◌+◌, ◌≤◌, ◌∷◌, length, MatchOption};
ghost use Rattle.rel_lexer.specs.Bytes.{HasNoClose, NotNext};
ghost use Rattle.rel_lexer.specs.Reads.{LeavesAfterClose, Reads};

use crate::bytes::after;
use crate::piece::Taken;
use crate::{LexError, Place};

/// Reads the comment whose `/*` begins at this byte, before these bytes.
pub(crate) fn read_comment(at: u32, bytes: &[u8]) -> Result<Taken<'_>, LexError>
    requires { at + 2 + length bytes.now ≤ 65536 }
    ensures { Reads at (47 ∷ 42 ∷ bytes.now) result }
{
    match after_close(bytes) {
        Some(rest) => Ok(Taken { kind: None, rest }),
        None => Err(LexError::UnclosedComment(Place::of_bytes(at, 2 + bytes.len()))),
    }
}

/// What follows the first `*/`.
fn after_close(bytes: &[u8]) -> Option<&[u8]>
    ensures { MatchOption result (HasNoClose bytes.now) (λ rest. LeavesAfterClose bytes.now rest.now) }
{
    let mut rest = bytes;
    while let Some((first, more)) = rest.split_first() {
        match closed_by(*first, more) {
            Some(left) => return Some(left),
            None => rest = more,
        }
    }
    None
}

/// What follows `*/`, where the byte and those after it begin with that.
fn closed_by(first: u8, more: &[u8]) -> Option<&[u8]>
    ensures { MatchOption result (first ≡ 42 → NotNext 47 more.now)
        (λ left. (first ≡ 42) × (more.now ≡ 47 ∷ left.now)) }
{
    if first != b'*' {
        return None;
    }
    after(b'/', more)
}
