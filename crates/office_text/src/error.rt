use std::alloc::AllocError;
use thiserror::Error;

/// Why a text isn't that of an office.
#[derive(Clone, Copy, Debug, Error)]
pub enum OfficeError {
    /// The number of the first bad line, counted from 1. It stands still at 4,294,967,295.
    #[error("line {0} is bad")]
    BadLine(u32),
    /// Want of memory.
    #[error("out of memory")]
    Memory,
}

impl From<AllocError> for OfficeError {
    ghost use Rattle.std.specs.Prelude.{◌≡◌};
    ghost use Rattle.office_text.specs.declared.error.OfficeError.TheVariants.{Memory};

    ghost from_gives = { λ _ e. e ≡ Memory };

    fn from(_: AllocError) -> OfficeError {
        OfficeError::Memory
    }
}
