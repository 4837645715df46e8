ghost use Rattle.std.specs.Prelude.{◌≡◌, ◌+◌, ◌≤◌, min, [], map, vec_capacity, IfOk, IfSome};
ghost use Rattle.report_text.specs.Reports.{most_report_bytes, most_rows};
ghost use Rattle.agent_text.specs.Histories.{shown_history};
ghost use Rattle.agent_text.specs.KeptTexts.{AreMade};
ghost use Rattle.agent_text.specs.SavedTexts.{most_bytes};
ghost use Rattle.agent_state.specs.Counting.{pending_count};

use agent_text::{Histories, History, MadeReports, saved_size};
use desk_base::Room;
use rel_lexer::Text;
use report_text::{MOST_ROWS, ReportRow, report_size};
use std::alloc::{AllocError, Global};

/// What the end of a turn takes, taken before anything that can't be undone: a report without rows, with room for them, and room for
/// a saved text.
#[derive(Drop)]
pub struct Spare {
    /// The name of the computer.
    pub computer: Text,
    /// Room for the rows of the report.
    pub rows: Vec<ReportRow>,
    /// Room for the saved text.
    pub text: Room,
}

impl Spare {
    /// Room for the text of these histories and reports with one report more, and for the rows of that one. One action that isn't
    /// pending may become so. The error is want of memory, also where the text is too long for the machine.
    pub fn take(
        alloc: Global,
        computer: &Text,
        histories: &Histories,
        reports: MadeReports<'_>,
    ) -> Result<Spare, AllocError>
        requires { AreMade reports }
        ensures computer { IfOk result (λ spare. spare.computer ≡ computer.now) }
        ensures empty { IfOk result (λ spare. spare.rows.items ≡ []) }
        ensures rows { IfOk result (λ spare. min most_rows (pending_count histories.now + 1) ≤ vec_capacity spare.rows) }
        ensures text { IfOk result (λ spare. most_bytes histories.now reports.entry.reports.now
            + most_report_bytes (min most_rows (pending_count histories.now + 1)) ≤ spare.text.capacity) }
    {
        let rows = pending_count(histories.as_slice())
            .saturating_add(1)
            .min(MOST_ROWS);
        let Some(size) = text_size(histories, reports, rows) else {
            return Err(AllocError);
        };
        Ok(Spare {
            computer: computer.copy()?,
            rows: Vec::with_capacity(alloc, rows)?,
            text: Room::with_capacity(alloc, size)?,
        })
    }
}

/// How many actions are pending.
fn pending_count(histories: &[History]) -> usize
    ensures { result ≡ pending_count (map shown_history histories.now) }
{
    histories.iter().filter(|history| history.pending).count()
}

/// The most bytes of the text with one report more of so many rows.
fn text_size(histories: &Histories, reports: MadeReports<'_>, rows: usize) -> Option<usize>
    requires { AreMade reports }
    ensures { IfSome result (λ size. size ≡ most_bytes histories.now reports.entry.reports.now + most_report_bytes rows) }
{
    let report = report_size(rows)?;
    saved_size(histories, reports)?.checked_add(report)
}
