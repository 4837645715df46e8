use std::alloc::AllocError;
use thiserror::Error;

/// Why a text isn't read as a report.
#[derive(Debug, Drop, Error)]
pub enum ReportError {
    /// The line, counted from 1, at which no continuation can make the text good.
    #[error("line {0} of the report is bad")]
    BadReport(u32),
    /// The text has more than 65,536 bytes.
    #[error("the report is too long")]
    TooLong,
    /// Want of memory.
    #[error("want of memory")]
    Memory,
}

impl From<AllocError> for ReportError {
    ghost use Rattle.std.specs.Prelude.{◌≡◌};
    ghost use Rattle.report_text.specs.declared.error.ReportError.TheVariants.{Memory};

    ghost from_gives = { λ _ e. e ≡ Memory };

    fn from(_: AllocError) -> ReportError {
        ReportError::Memory
    }
}
