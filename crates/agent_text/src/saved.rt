ghost use Rattle.std.specs.Prelude.{◌≡◌, IfOk};

use crate::histories::Histories;
use rel_lexer::Text;
use report_text::Report;
use std::alloc::AllocError;
use std::marker::Model;

/// Reports in their order. Contracts see the list of them.
#[derive(Drop)]
pub struct Reports {
    list: Vec<Report>,
}

impl Model for Reports {
    ghost use Rattle.std.specs.Prelude.{List};
    ghost use Rattle.report_text.specs.declared.report.Report.{Report};

    ghost Value = { List Report };

    ghost view = { λ r. r.list.items };
}

impl Reports {
    /// The list of these reports. It takes no memory.
    pub fn from_vec(reports: Vec<Report>) -> Reports
        ensures { result ≡ reports.items }
    {
        Reports { list: reports }
    }

    /// The reports, to be changed. It takes no memory.
    pub fn into_vec(self) -> Vec<Report>
        ensures { result.items ≡ self }
    {
        self.list
    }

    /// The reports.
    pub fn as_slice(&self) -> &[Report]
        ensures { result.now ≡ self.now }
    {
        self.list.as_slice()
    }

    /// The same reports once more. The error is want of memory.
    pub fn copy(&self) -> Result<Reports, AllocError>
        ensures { IfOk result (λ reports. reports ≡ self.now) }
    {
        let mut copies = Vec::new(*self.list.allocator());
        for report in self.list.as_slice() {
            copies.push(report.copy()?)?;
        }
        Ok(Reports::from_vec(copies))
    }
}

/// What an agent saves.
#[derive(Drop)]
pub struct Saved {
    /// The name of its computer.
    pub computer: Text,
    /// The number of its next report, from 1 to 2^53.
    pub next: u64,
    /// The attempts of its actions.
    pub histories: Histories,
    /// The reports that aren't known to have arrived, at most 1,000, in strictly ascending order of numbers below the next.
    pub reports: Reports,
}

impl Saved {
    /// The same once more. The error is want of memory.
    pub fn copy(&self) -> Result<Saved, AllocError>
        ensures { IfOk result (λ saved. saved ≡ self.now) }
    {
        Ok(Saved {
            computer: self.computer.copy()?,
            next: self.next,
            histories: self.histories.copy()?,
            reports: self.reports.copy()?,
        })
    }
}
