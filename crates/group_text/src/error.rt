use std::alloc::AllocError;
use thiserror::Error;

/// Why a text isn't that of an analysis or of a group. A line has its number, counted from 1, which stands still at 4,294,967,295.
#[derive(Clone, Copy, Debug, Error)]
pub enum GroupError {
    /// The first bad line of an analysis, or the one whose question is refused.
    #[error("line {0} of the analysis is bad")]
    BadAnalysis(u32),
    /// The first bad line of a group.
    #[error("line {0} of the group is bad")]
    BadGroup(u32),
    /// Want of memory.
    #[error("out of memory")]
    Memory,
}

impl From<AllocError> for GroupError {
    ghost use Rattle.std.specs.Prelude.{◌≡◌};
    ghost use Rattle.group_text.specs.declared.error.GroupError.TheVariants.{Memory};

    ghost from_gives = { λ _ e. e ≡ Memory };

    fn from(_: AllocError) -> GroupError {
        GroupError::Memory
    }
}
