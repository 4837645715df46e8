ghost use Rattle.std.specs.Prelude.{IfOk, IsTrue, ◌↔◌};
ghost use Rattle.report_text.specs.RowLines.{row_line};
ghost use Rattle.report_text.specs.Reports.{CanFollow, IsAbove, IsReport, ReadsReport, report_lines};
ghost use Rattle.line_forms.specs.Readers.{ReadsPart, TakesAll, TakesOne};

use crate::error::ReportError;
use crate::form::Form;
use crate::head::{take_computer, take_form, take_seq};
use crate::report::{Report, ReportRows};
use crate::report_row::ReportRow;
use crate::row_reader::read_row;
use line_forms::{Lines, a_cursor_stands_behind_its_lines};
use rel_lexer::Text;
use std::alloc::{AllocError, Global};

/// The most bytes of a report's text.
const LONGEST_REPORT: usize = 65_536;

/// The most rows of a report.
pub const MOST_ROWS: usize = 500;

/// Reads a report: its form, the computer, its number, the rows and `end`, a line each. A text that isn't a report is
/// answered by its first bad line, one with too many bytes by `TooLong`.
pub fn read_report(alloc: Global, text: &[u8]) -> Result<Report, ReportError>
    ensures { ReadsReport text.now result }
{
    if text.len() > LONGEST_REPORT {
        return Err(ReportError::TooLong);
    }
    // Proof: what a cursor that has read a whole report says of the text.
    a_cursor_stands_behind_its_lines();
    let mut lines = Lines::new(text);
    let report = take_report(alloc, &mut lines)?;
    let line = lines.number();
    let report = match report {
        Some(report) => report,
        None => return Err(ReportError::BadReport(line)),
    };
    if !lines.is_over() {
        return Err(ReportError::BadReport(line));
    }
    Ok(report)
}

/// Takes the lines of a report, which other lines may follow. Where those ahead aren't one, the cursor stands at the line
/// with which no report goes on.
pub fn take_report(alloc: Global, lines: &mut Lines<'_>) -> Result<Option<Report>, AllocError>
    ensures { IfOk result (λ report. ReadsPart IsReport report_lines lines.old lines.new report) }
{
    let Some(form) = take_form(lines) else {
        return Ok(None);
    };
    let Some(computer) = take_computer(lines) else {
        return Ok(None);
    };
    let Some(seq) = take_seq(lines) else {
        return Ok(None);
    };
    let rows = take_rows(alloc, form, lines)?;
    if !lines.take_exactly(b"end") {
        return Ok(None);
    }
    Ok(Some(Report {
        form,
        computer: Text::from_str(alloc, computer)?,
        seq,
        rows,
    }))
}

/// Takes the lines of rows, as far as they go.
pub fn take_rows(alloc: Global, form: Form, lines: &mut Lines<'_>) -> Result<ReportRows, AllocError>
    ensures { IfOk result (λ rows. TakesAll (CanFollow form) (row_line form) lines.old lines.new rows) }
{
    let mut rows = Vec::new(alloc);
    while let Some(row) = take_row(form, rows.as_slice(), lines) {
        rows.push(row)?;
    }
    Ok(ReportRows::from_vec(rows))
}

/// Takes the line of a row that can follow these rows, if it is ahead.
fn take_row(form: Form, rows: &[ReportRow], lines: &mut Lines<'_>) -> Option<ReportRow>
    ensures { TakesOne (CanFollow form rows.now) (row_line form) lines.old lines.new result }
{
    let row = read_row(form, lines.line_ahead()?)?;
    if rows.len() >= MOST_ROWS {
        return None;
    }
    if !is_above(rows, &row) {
        return None;
    }
    lines.skip_line();
    Some(row)
}

/// Whether the row's action is above that of the last of these rows.
fn is_above(rows: &[ReportRow], row: &ReportRow) -> bool
    ensures { IsTrue result ↔ IsAbove rows.now row.now }
{
    match rows.last() {
        None => true,
        Some(last) => last.action < row.action,
    }
}
