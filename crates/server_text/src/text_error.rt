use std::alloc::AllocError;

/// Why the text of a request isn't read.
#[derive(Clone, Copy)]
pub enum TextError {
    /// The line at which it is refused, counted from 1; 0 for the whole of a text that is too long.
    BadText(u32),
    /// Memory ran out.
    Memory,
}

impl From<AllocError> for TextError {
    ghost use Rattle.std.specs.Prelude.{◌≡◌};
    ghost use Rattle.server_text.specs.declared.text_error.TextError.TheVariants.{Memory};

    ghost from_gives = { λ _ e. e ≡ Memory };

    fn from(_: AllocError) -> TextError {
        TextError::Memory
    }
}
