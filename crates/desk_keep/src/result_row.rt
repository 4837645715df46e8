ghost use Rattle.std.specs.Prelude.{◌≡◌, IfOk};

use rel_lexer::Text;
use report_text::ReportRow;
use std::alloc::AllocError;

/// The last that was reported of an action by a computer.
#[derive(Drop)]
pub struct ResultRow {
    pub computer: Text,
    pub row: ReportRow,
    /// The number of the report.
    pub seq: u64,
}

impl ResultRow {
    /// The same result once more. The error is want of memory.
    pub fn copy(&self) -> Result<ResultRow, AllocError>
        ensures { IfOk result (λ copy. copy ≡ self.now) }
    {
        Ok(ResultRow {
            computer: self.computer.copy()?,
            row: self.row,
            seq: self.seq,
        })
    }
}
