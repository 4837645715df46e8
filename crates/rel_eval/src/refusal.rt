ghost use Rattle.std.specs.Prelude.{◌≡◌, IfOk};
ghost use Rattle.rel_eval.specs.Refusals.{located};
ghost use Rattle.rel_eval.specs.declared.refusal.Refusal.TheVariants.{Memory};

use rel_grammar::ParseError;
use rel_lexer::{LexError, Place, Text};
use rel_trace::RelKind;
use rel_types::TypeError;
use std::alloc::{AllocError, AllocFailed};

/// Why a text is no question.
#[derive(Drop)]
pub enum Refusal {
    /// It is refused for this, at this place.
    At(RelKind, Place),
    /// Nothing is defined of these words here, which are those of a name, a sign, a cast or `it`, in lower case and joined by
    /// one space. Tables number it as `RelKind::NotDefined`.
    NotDefined(Place, Text),
    /// Memory ran out.
    Memory,
}

/// A kind of error, and its place.
#[derive(Clone, Copy)]
pub struct Located {
    pub kind: RelKind,
    pub place: Place,
}

impl Refusal {
    /// The same refusal once more. The error is want of memory.
    pub fn copy(&self) -> Result<Refusal, AllocError>
        ensures { IfOk result (λ refusal. refusal ≡ self.now) }
    {
        Ok(match self {
            Refusal::At(kind, place) => Refusal::At(*kind, *place),
            Refusal::NotDefined(place, words) => Refusal::NotDefined(*place, words.copy()?),
            Refusal::Memory => Refusal::Memory,
        })
    }

    /// What it is for and where, without the words that it may have; None for want of memory.
    pub fn located(&self) -> Option<Located>
        ensures { result ≡ located self.now }
    {
        match self {
            Refusal::At(kind, place) => Some(Located {
                kind: *kind,
                place: *place,
            }),
            Refusal::NotDefined(place, _) => Some(Located {
                kind: RelKind::NotDefined,
                place: *place,
            }),
            Refusal::Memory => None,
        }
    }
}

/// The place of what stands nowhere in the text.
const NOWHERE: Place = Place { from: 0, to: 0 };

impl From<LexError> for Refusal {
    ghost use Rattle.rel_eval.specs.Refusals.{IsRefusalOf};

    ghost from_gives = { IsRefusalOf };

    fn from(error: LexError) -> Refusal {
        match error {
            LexError::BadByte(place) => Refusal::At(RelKind::BadByte, place),
            LexError::BadEscape(place) => Refusal::At(RelKind::BadEscape, place),
            LexError::UnclosedString(place) => Refusal::At(RelKind::UnclosedString, place),
            LexError::UnclosedComment(place) => Refusal::At(RelKind::UnclosedComment, place),
            LexError::TooLong => Refusal::At(RelKind::TooLong, NOWHERE),
            LexError::BadNumber(place) => Refusal::At(RelKind::BadNumber, place),
            LexError::Memory => Refusal::Memory,
        }
    }
}

impl From<ParseError> for Refusal {
    ghost use Rattle.rel_eval.specs.Refusals.{IsRefusalOfParser};

    ghost from_gives = { IsRefusalOfParser };

    fn from(error: ParseError) -> Refusal {
        match error {
            ParseError::NoParse(place) => Refusal::At(RelKind::NoParse, place),
            ParseError::TooDeep(place) => Refusal::At(RelKind::TooDeep, place),
            ParseError::Memory => Refusal::Memory,
        }
    }
}

impl From<TypeError> for Refusal {
    ghost use Rattle.rel_eval.specs.Refusals.{IsRefusalOfChecker};

    ghost from_gives = { IsRefusalOfChecker };

    fn from(error: TypeError) -> Refusal {
        match error {
            TypeError::NotDefined(place, words) => Refusal::NotDefined(place, words),
            TypeError::NotSingular(place) => Refusal::At(RelKind::NotSingular, place),
            TypeError::Incompatible(place) => Refusal::At(RelKind::Incompatible, place),
            TypeError::Memory => Refusal::Memory,
        }
    }
}

impl From<AllocError> for Refusal {
    ghost from_gives = { λ _ e. e ≡ Memory };

    fn from(_: AllocError) -> Refusal {
        Refusal::Memory
    }
}

impl<T: Drop> From<AllocFailed<T>> for Refusal {
    ghost from_gives = { λ _ e. e ≡ Memory };

    fn from(_: AllocFailed<T>) -> Refusal {
        Refusal::Memory
    }
}
