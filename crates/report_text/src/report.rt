ghost use Rattle.std.specs.Prelude.{◌≡◌, IfOk};

use crate::form::Form;
use crate::report_row::ReportRow;
use rel_lexer::Text;
use std::alloc::AllocError;
use std::marker::Model;

/// The rows of a report. Contracts see the list of them.
#[derive(Drop)]
pub struct ReportRows {
    list: Vec<ReportRow>,
}

impl Model for ReportRows {
    ghost use Rattle.std.specs.Prelude.{List};
    ghost use Rattle.report_text.specs.declared.report_row.ReportRow.{ReportRow};

    ghost Value = { List ReportRow };

    ghost view = { λ r. r.list.items };
}

impl ReportRows {
    /// The list of these rows. It takes no memory.
    pub fn from_vec(rows: Vec<ReportRow>) -> ReportRows
        ensures { result ≡ rows.items }
    {
        ReportRows { list: rows }
    }

    /// The rows, to be changed. It takes no memory.
    pub fn into_vec(self) -> Vec<ReportRow>
        ensures { result.items ≡ self }
    {
        self.list
    }

    /// The rows.
    pub fn as_slice(&self) -> &[ReportRow]
        ensures { result.now ≡ self.now }
    {
        self.list.as_slice()
    }

    /// The same rows once more.
    pub fn copy(&self) -> Result<ReportRows, AllocError>
        ensures { IfOk result (λ rows. rows ≡ self.now) }
    {
        Ok(ReportRows {
            list: self.list.clone()?,
        })
    }
}

/// What a computer reports of its attempts.
#[derive(Drop)]
pub struct Report {
    pub form: Form,
    /// The name of the computer.
    pub computer: Text,
    /// The number of the report, from 1 to 2^53.
    pub seq: u64,
    /// At most 500, in strictly ascending order of actions.
    pub rows: ReportRows,
}

impl Report {
    /// The same report once more.
    pub fn copy(&self) -> Result<Report, AllocError>
        ensures { IfOk result (λ report. report ≡ self.now) }
    {
        Ok(Report {
            form: self.form,
            computer: self.computer.copy()?,
            seq: self.seq,
            rows: self.rows.copy()?,
        })
    }
}
