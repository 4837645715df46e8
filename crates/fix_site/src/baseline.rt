ghost use Rattle.std.specs.Prelude.{◌≡◌, IfOk};

use crate::ids::Ids;
use crate::texts::Texts;
use rel_lexer::Text;
use std::alloc::AllocError;

/// Fixlets that are run one after another.
#[derive(Drop)]
pub struct Baseline {
    /// From 1 to 2^53.
    pub id: u64,
    /// One line, not empty.
    pub title: Text,
    /// The questions that are true on a computer for which the baseline is relevant, one line each.
    pub relevance: Texts,
    /// The ids of one or more fixlets that stand before it in its site. An id that stands twice is run twice.
    pub components: Ids,
}

impl Baseline {
    /// The same baseline once more.
    pub fn copy(&self) -> Result<Baseline, AllocError>
        ensures { IfOk result (λ baseline. baseline ≡ self.now) }
    {
        Ok(Baseline {
            id: self.id,
            title: self.title.copy()?,
            relevance: self.relevance.copy()?,
            components: self.components.copy()?,
        })
    }
}
