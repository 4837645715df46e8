ghost use Rattle.std.specs.Prelude.{◌≡◌, IfOk};

use rel_lexer::{Place, Text};
use rel_trace::RelKind;
use std::alloc::AllocError;

/// What a question is that is asked for a truth.
#[derive(Clone, Copy)]
pub enum Truth {
    True,
    False,
    /// The question's error; NotSingular where it is plural, and else Incompatible where it isn't Boolean, at its span.
    Error(RelKind, Place),
    /// The look at this place failed.
    Failed(Place),
    Memory,
}

/// What a question is that is asked for a text.
#[derive(Drop)]
pub enum OneText {
    /// At most 1,048,576 bytes.
    Text(Text),
    /// The question's error; NotSingular where it is plural, and TextTooLong where its text is longer, at its span.
    Error(RelKind, Place),
    /// The look at this place failed.
    Failed(Place),
    Memory,
}

impl OneText {
    /// The same answer once more. The error is want of memory.
    pub fn copy(&self) -> Result<OneText, AllocError>
        ensures { IfOk result (λ told. told ≡ self.now) }
    {
        Ok(match self {
            OneText::Text(text) => OneText::Text(text.copy()?),
            OneText::Error(kind, place) => OneText::Error(*kind, *place),
            OneText::Failed(place) => OneText::Failed(*place),
            OneText::Memory => OneText::Memory,
        })
    }
}
