ghost use Rattle.std.specs.Prelude.{◌≡◌, IfSome, map, sum_by};
ghost use Rattle.agent_text.specs.Histories.{shown_history};
ghost use Rattle.agent_text.specs.KeptTexts.{AreKept, AreMade};
ghost use Rattle.agent_text.specs.MostBytes.{history_bytes, report_bytes};
ghost use Rattle.agent_text.specs.SavedTexts.{most_bytes};

use crate::histories::Histories;
use crate::history::History;
use crate::kept_histories::KeptHistories;
use crate::made_reports::MadeReports;
use report_text::report_size;

/// The most bytes of the first three lines and the last.
const LONGEST_HEAD: usize = 108;

/// The most bytes of the lines `action` and `pending`.
const LONGEST_ACTION: usize = 49;

/// The most bytes of the line of an attempt.
const LONGEST_ATTEMPT: usize = 113;

/// The most bytes of a saved text with these histories and reports. None where that is no number of the machine's.
pub fn saved_size(histories: &Histories, reports: MadeReports<'_>) -> Option<usize>
    requires { AreMade reports }
    ensures { IfSome result (λ most. most ≡ most_bytes histories.now reports.entry.reports.now) }
{
    let histories = histories_size(histories.kept())?;
    let reports = reports_size(reports)?;
    LONGEST_HEAD.checked_add(histories.checked_add(reports)?)
}

/// The most bytes of the lines of histories, of the first of which they are known.
fn histories_size(histories: KeptHistories<'_>) -> Option<usize>
    requires { AreKept histories.list.now histories.made.now }
    ensures { IfSome result (λ most. most ≡ sum_by history_bytes (map shown_history histories.entry.list.now)) }
{
    let mut most = histories.made.most();
    for history in &histories.list[histories.made.count()..] {
        most = most.checked_add(history_size(history)?)?;
    }
    Some(most)
}

/// The most bytes of the texts of reports, of the first of which they are known.
fn reports_size(reports: MadeReports<'_>) -> Option<usize>
    requires { AreMade reports }
    ensures { IfSome result (λ most. most ≡ sum_by report_bytes reports.entry.reports.now) }
{
    let mut most = reports.made.most();
    for report in &reports.reports[reports.made.count()..] {
        most = most.checked_add(report_size(report.rows.as_slice().len())?)?;
    }
    Some(most)
}

/// The most bytes of the lines of a history.
pub(crate) fn history_size(history: &History) -> Option<usize>
    ensures { IfSome result (λ most. most ≡ history_bytes (shown_history history.now)) }
{
    let attempts = history.rows.as_slice().len();
    LONGEST_ACTION.checked_add(LONGEST_ATTEMPT.checked_mul(attempts)?)
}
