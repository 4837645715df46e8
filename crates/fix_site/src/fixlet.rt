ghost use Rattle.std.specs.Prelude.{◌≡◌, IfOk};

use crate::texts::Texts;
use rel_lexer::Text;
use std::alloc::AllocError;

/// What makes a run of a fixlet a success.
#[derive(Drop)]
pub enum Success {
    /// Each line of the script was done.
    Lines,
    /// The fixlet isn't relevant any more.
    Relevance,
    /// This question is true then.
    Clause(Text),
}

/// What is wrong, for whom, and what puts it right.
#[derive(Drop)]
pub struct Fixlet {
    /// From 1 to 2^53.
    pub id: u64,
    /// One line, not empty.
    pub title: Text,
    /// The questions that are true on a computer for which the fixlet is relevant, one line each.
    pub relevance: Texts,
    pub success: Success,
    /// The lines of the script, at most 10,000, which with an LF each have at most 262,144 bytes.
    pub script: Texts,
}

impl Success {
    /// The same once more.
    pub fn copy(&self) -> Result<Success, AllocError>
        ensures { IfOk result (λ success. success ≡ self.now) }
    {
        match self {
            Success::Lines => Ok(Success::Lines),
            Success::Relevance => Ok(Success::Relevance),
            Success::Clause(question) => Ok(Success::Clause(question.copy()?)),
        }
    }
}

impl Fixlet {
    /// The same fixlet once more.
    pub fn copy(&self) -> Result<Fixlet, AllocError>
        ensures { IfOk result (λ fixlet. fixlet ≡ self.now) }
    {
        Ok(Fixlet {
            id: self.id,
            title: self.title.copy()?,
            relevance: self.relevance.copy()?,
            success: self.success.copy()?,
            script: self.script.copy()?,
        })
    }
}
