ghost use Rattle.std.specs.Prelude.{◌≡◌};
ghost use Rattle.script_text.specs.Refusals.{error_line, numbered};
ghost use Rattle.script_text.specs.declared.error.Refusal.TheVariants.{Memory as OutOfMemory};

use std::alloc::{AllocError, AllocFailed};
use thiserror::Error;

/// Why lines are no script: the first line from the top that is refused, or where none is, the first statement that isn't
/// closed. Lines are counted from 1.
#[derive(Clone, Copy, Debug, Drop, Error)]
pub enum ScriptError {
    /// The line is no command, or an `if` inside of 64 others.
    #[error("line {0}: this is no command")]
    NoCommand(u32),
    /// The `if` of this line has no `endif`.
    #[error("line {0}: this if is not closed")]
    IfNotClosed(u32),
    /// An `elseif`, `else` or `endif` outside of an `if`, or an `elseif` or `else` after an `else`.
    #[error("line {0}: this belongs to no if")]
    StrayElse(u32),
    /// A brace opens an expression that has no end.
    #[error("line {0}: this brace is not closed")]
    BraceNotClosed(u32),
    /// No line closes the `createfile` of this line.
    #[error("line {0}: this createfile is not closed")]
    CreateNotClosed(u32),
    /// Memory ran out.
    #[error("out of memory")]
    Memory,
}

impl ScriptError {
    /// The line of the error, counted from 1; 0 for want of memory, which has none.
    pub fn line(self) -> u32
        ensures { result ≡ error_line self }
    {
        match self {
            ScriptError::NoCommand(line)
            | ScriptError::IfNotClosed(line)
            | ScriptError::StrayElse(line)
            | ScriptError::BraceNotClosed(line)
            | ScriptError::CreateNotClosed(line) => line,
            ScriptError::Memory => 0,
        }
    }
}

impl From<AllocError> for ScriptError {
    ghost use Rattle.script_text.specs.declared.error.ScriptError.TheVariants.{Memory};

    ghost from_gives = { λ _ e. e ≡ Memory };

    fn from(_: AllocError) -> ScriptError {
        ScriptError::Memory
    }
}

impl<T: Drop> From<AllocFailed<T>> for ScriptError {
    ghost use Rattle.script_text.specs.declared.error.ScriptError.TheVariants.{Memory};

    ghost from_gives = { λ _ e. e ≡ Memory };

    fn from(_: AllocFailed<T>) -> ScriptError {
        ScriptError::Memory
    }
}

/// Why one line is refused, by what is in it alone.
#[derive(Clone, Copy)]
pub(crate) enum Refusal {
    NoCommand,
    BraceNotClosed,
    Memory,
}

impl Refusal {
    /// This refusal of the line with this number.
    pub(crate) fn at(self, line: u32) -> ScriptError
        ensures { result ≡ numbered line self }
    {
        match self {
            Refusal::NoCommand => ScriptError::NoCommand(line),
            Refusal::BraceNotClosed => ScriptError::BraceNotClosed(line),
            Refusal::Memory => ScriptError::Memory,
        }
    }
}

impl From<AllocError> for Refusal {
    ghost from_gives = { λ _ e. e ≡ OutOfMemory };

    fn from(_: AllocError) -> Refusal {
        Refusal::Memory
    }
}

impl<T: Drop> From<AllocFailed<T>> for Refusal {
    ghost from_gives = { λ _ e. e ≡ OutOfMemory };

    fn from(_: AllocFailed<T>) -> Refusal {
        Refusal::Memory
    }
}
