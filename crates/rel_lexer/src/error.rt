ghost use Rattle.std.specs.Prelude.{◌≡◌};
ghost use Rattle.rel_lexer.specs.declared.error.LexError.TheVariants.{Memory};

use crate::Place;
use std::alloc::{AllocError, AllocFailed};

/// Why a text has no tokens: its first fault from the left, or its length.
#[derive(Clone, Copy)]
pub enum LexError {
    /// One byte: one that begins no blank, comment, word, number, string or sign; or, in a string that is closed and isn't
    /// UTF-8, the first after the longest front of it that is.
    BadByte(Place),
    /// The string is UTF-8, but what its escapes stand for isn't. The place is that of the string and its quotes.
    BadEscape(Place),
    /// From the quote to the end of the text.
    UnclosedString(Place),
    /// From the `/*` to the end of the text.
    UnclosedComment(Place),
    /// The text has more than 65,536 bytes.
    TooLong,
    /// The number is above 9,223,372,036,854,775,807.
    BadNumber(Place),
    /// Memory ran out.
    Memory,
}

impl From<AllocError> for LexError {
    ghost from_gives = { λ _ e. e ≡ Memory };

    fn from(_: AllocError) -> LexError {
        LexError::Memory
    }
}

impl<T: Drop> From<AllocFailed<T>> for LexError {
    ghost from_gives = { λ _ e. e ≡ Memory };

    fn from(_: AllocFailed<T>) -> LexError {
        LexError::Memory
    }
}
