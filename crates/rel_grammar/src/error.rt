use rel_lexer::Place;
use std::alloc::{AllocError, AllocFailed};

/// Why tokens have no tree.
#[derive(Clone, Copy)]
pub enum ParseError {
    /// The first token with which the tokens so far begin no sentence; or, where all of them begin one and are
    /// none, the empty place at the end of the text.
    NoParse(Place),
    /// The first token that is nested more than 64 deep.
    TooDeep(Place),
    /// Memory ran out.
    Memory,
}

impl From<AllocError> for ParseError {
    ghost use Rattle.std.specs.Prelude.{◌≡◌};
    ghost use Rattle.rel_grammar.specs.declared.error.ParseError.TheVariants.{Memory};

    ghost from_gives = { λ _ e. e ≡ Memory };

    fn from(_: AllocError) -> ParseError {
        ParseError::Memory
    }
}

impl<T: Drop> From<AllocFailed<T>> for ParseError {
    ghost use Rattle.std.specs.Prelude.{◌≡◌};
    ghost use Rattle.rel_grammar.specs.declared.error.ParseError.TheVariants.{Memory};

    ghost from_gives = { λ _ e. e ≡ Memory };

    fn from(_: AllocFailed<T>) -> ParseError {
        ParseError::Memory
    }
}
