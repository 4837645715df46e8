ghost use Rattle.std.specs.Prelude.{◌≡◌};
ghost use Rattle.agent_attempt.specs.Relevance as word;

use rel_eval::Truth;

/// What is found of a clause, a content, a target or a success rule that is asked on a machine.
#[derive(Clone, Copy)]
pub enum Found {
    Yes,
    No,
    /// A look failed.
    Failed,
    Memory,
}

impl Found {
    /// What a truth says of a clause. One that errs, is plural or isn't Boolean isn't true.
    pub(crate) fn of(truth: Truth) -> Found
        ensures { result ≡ word.found_of truth }
    {
        match truth {
            Truth::True => Found::Yes,
            Truth::False | Truth::Error(_, _) => Found::No,
            Truth::Failed(_) => Found::Failed,
            Truth::Memory => Found::Memory,
        }
    }

    /// What is found of what is not to be so.
    pub(crate) fn opposite(self) -> Found
        ensures { result ≡ word.opposite self }
    {
        match self {
            Found::Yes => Found::No,
            Found::No => Found::Yes,
            Found::Failed => Found::Failed,
            Found::Memory => Found::Memory,
        }
    }
}
