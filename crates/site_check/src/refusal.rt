use rel_lexer::Place;
use rel_trace::RelKind;

/// Why a piece of a site is refused, and the line of the site's text on which that is, counted from 1.
#[derive(Clone, Copy)]
pub enum PieceRefusal {
    /// The question on this line asks for no truth.
    Question { line: u32, fault: QuestionFault },
    /// This line of a script, or the statement that begins on it, is refused.
    Script { line: u32, fault: ScriptFault },
}

/// Why a text is no question that gives one truth: it is refused itself, or may give no value or several, or gives no truth.
#[derive(Clone, Copy)]
pub struct QuestionFault {
    pub kind: RelKind,
    /// Where in the text.
    pub place: Place,
}

/// Why lines are no script.
#[derive(Clone, Copy)]
pub enum ScriptFault {
    /// The line is no command, or an `if` inside of 64 others.
    NoCommand,
    /// The `if` of this line has no `endif`.
    IfNotClosed,
    /// An `elseif`, `else` or `endif` outside of an `if`, or an `elseif` or `else` after an `else`.
    StrayElse,
    /// A brace opens an expression that has no end.
    BraceNotClosed,
    /// No line closes the `createfile` of this line.
    CreateNotClosed,
}
