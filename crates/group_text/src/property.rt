ghost use Rattle.std.specs.Prelude.{◌≡◌, IfOk, IsTrue, ◌↔◌};

use rel_lexer::Text;
use std::alloc::AllocError;

/// What is measured on each machine under a name: what a question gives there.
#[derive(Drop)]
pub struct Property {
    /// 1 to 64 ASCII letters, digits, `-`, `_` and `.`.
    pub name: Text,
    /// After how many seconds it is measured again, from 0 to 2,147,483,648.
    pub period: i64,
    pub question: Text,
}

impl Property {
    /// The same property once more. The error is want of memory, here and below.
    pub fn copy(&self) -> Result<Property, AllocError>
        ensures { IfOk result (λ property. property ≡ self.now) }
    {
        Ok(Property {
            name: self.name.copy()?,
            period: self.period,
            question: self.question.copy()?,
        })
    }

    /// Whether the other one is the same, in its name, its period and its question.
    pub fn is(&self, other: &Property) -> bool
        ensures { IsTrue result ↔ (self.now ≡ other.now) }
    {
        self.period == other.period
            && self.name.as_str() == other.name.as_str()
            && self.question.as_str() == other.question.as_str()
    }
}
