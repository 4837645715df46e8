use std::alloc::AllocError;

/// Why a text isn't read as what an agent saved.
#[derive(Clone, Copy)]
pub enum SavedError {
    /// The line, counted from 1, at which no continuation can make the text good.
    BadLine(u32),
    /// Want of memory.
    Memory,
}

impl From<AllocError> for SavedError {
    ghost use Rattle.std.specs.Prelude.{◌≡◌};
    ghost use Rattle.agent_text.specs.declared.error.SavedError.TheVariants.{Memory};

    ghost from_gives = { λ _ e. e ≡ Memory };

    fn from(_: AllocError) -> SavedError {
        SavedError::Memory
    }
}
