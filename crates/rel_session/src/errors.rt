ghost use Rattle.std.specs.Prelude.{◌≡◌};
ghost use Rattle.rel_session.specs.Errors.{error_text};

use rel_eval::RelKind;

/// The text of a kind of error.
pub(crate) fn error_text(kind: RelKind) -> &'static str
    ensures { result.now ≡ error_text kind }
{
    match kind {
        RelKind::BadByte => "A character cannot stand here.",
        RelKind::BadEscape => "A string is not text.",
        RelKind::UnclosedString => "A string is not closed.",
        RelKind::UnclosedComment => "A comment is not closed.",
        RelKind::TooLong => "The question is too long.",
        RelKind::NoParse => "This expression could not be parsed.",
        RelKind::TooDeep => "The question is nested too deeply.",
        RelKind::DivideByZero => "Division by zero.",
        RelKind::OutOfRange => "A number is out of range.",
        RelKind::TextTooLong => "A text is too long.",
        RelKind::NotDefined => "The operator \"\" is not defined.",
        RelKind::NotSingular => "A singular expression is required.",
        RelKind::Incompatible => "Incompatible types.",
        RelKind::Nonexistent => "Singular expression refers to nonexistent object.",
        RelKind::NonUnique => "Singular expression refers to non-unique object.",
        RelKind::Steps => "The question took too many steps.",
        RelKind::BadNumber => "A number is too large.",
    }
}
