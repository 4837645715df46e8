use thiserror::Error;

/// Why a text describes no machine.
#[derive(Clone, Copy, Debug, Error)]
pub enum WorldError {
    /// The number of the first bad line, counted from 1. It stands still at 4,294,967,295.
    #[error("line {0} describes no machine")]
    BadLine(u32),
    #[error("out of memory")]
    Memory,
}
