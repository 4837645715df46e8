ghost use Rattle.std.specs.Prelude.{◌≡◌};
ghost use Rattle.rel_trace.specs.Kinds.{fault_kind, is_caught, is_nonexistent, number_of};

use rel_value::ValueFault;

/// What a question is refused for, or ends with in place of a further value.
#[derive(Clone, Copy, Debug, PartialEq, Eq)]
pub enum RelKind {
    /// A byte can't stand there, at its place.
    BadByte = 1,
    /// What a string's escapes stand for is no text, at the place of the string.
    BadEscape = 2,
    /// A string isn't closed, from its quote to the end of the text.
    UnclosedString = 3,
    /// A comment isn't closed, from its begin to the end of the text.
    UnclosedComment = 4,
    /// The text has more than 65,536 bytes, at (0..0).
    TooLong = 5,
    /// The first token with which those so far begin no question; at the end of the text where all of them begin one and are none.
    NoParse = 6,
    /// The first token that stands more than 64 deep in brackets, signs before an operand, objects and `if`s.
    TooDeep = 7,
    /// A division by zero, at the sign.
    DivideByZero = 8,
    /// A result is no number of an i64, or no moment, at the sign or head.
    OutOfRange = 9,
    /// A text has more than 1,048,576 bytes, at the sign, the cast or the head.
    TextTooLong = 11,
    /// A head, a sign, a cast or `it` means nothing where it stands.
    NotDefined = 12,
    /// One value is wanted, and there may be several.
    NotSingular = 13,
    /// Values are of other kinds than is wanted.
    Incompatible = 14,
    /// A singular expression gives nothing, or a text has not the form that is asked for.
    Nonexistent = 15,
    /// A singular expression gives a second value.
    NonUnique = 16,
    /// The question has more than 1,000,000 looks and turns, at the first that is too many.
    Steps = 17,
    /// A number is above 9223372036854775807, at its place.
    BadNumber = 18,
}

impl RelKind {
    /// The number by which tables name it.
    pub fn number(self) -> u8
        ensures { result ≡ number_of self }
    {
        self as u8
    }

    /// Whether `exists` and filters count it as false.
    pub fn is_nonexistent(self) -> bool
        ensures { result ≡ is_nonexistent self }
    {
        match self {
            RelKind::Nonexistent => true,
            _ => false,
        }
    }

    /// Whether `|` goes on with its right side where the left ends in it.
    pub fn is_caught(self) -> bool
        ensures { result ≡ is_caught self }
    {
        match self {
            RelKind::TextTooLong => false,
            RelKind::Steps => false,
            _ => true,
        }
    }

    /// The error of a fault of a row. Want of memory is none.
    pub(crate) fn of_fault(fault: ValueFault) -> RelKind
        ensures { result ≡ fault_kind fault }
    {
        match fault {
            ValueFault::DivideByZero => RelKind::DivideByZero,
            ValueFault::OutOfRange => RelKind::OutOfRange,
            ValueFault::TextTooLong => RelKind::TextTooLong,
            _ => RelKind::Nonexistent,
        }
    }
}
