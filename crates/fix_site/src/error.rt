use std::alloc::AllocError;
use thiserror::Error;

/// Why a text isn't read as a site or an action.
#[derive(Debug, Drop, Error)]
pub enum SiteError {
    /// The line, counted from 1, at which no continuation can make the text good.
    #[error("line {0} is bad")]
    BadLine(u32),
    /// The same, where that line has the id of a block before it.
    #[error("line {0} has an id that stood before")]
    TwiceId(u32),
    /// All lines are those of a site, but it states another digest than that of its text.
    #[error("the digest is wrong")]
    WrongDigest { stated: [u8; 32], found: [u8; 32] },
    /// The text has more than 4,194,304 bytes.
    #[error("the text is too long")]
    TooLong,
    /// Want of memory.
    #[error("want of memory")]
    Memory,
}

impl From<AllocError> for SiteError {
    ghost use Rattle.std.specs.Prelude.{◌≡◌};
    ghost use Rattle.fix_site.specs.declared.error.SiteError.TheVariants.{Memory};

    ghost from_gives = { λ _ e. e ≡ Memory };

    fn from(_: AllocError) -> SiteError {
        SiteError::Memory
    }
}
