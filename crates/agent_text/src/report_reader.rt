ghost use Rattle.std.specs.Prelude.{◌≡◌, ◌<◌, IsTrue, ◌↔◌, MatchResult, Ok, Err};
ghost use Rattle.line_forms.specs.Names.{IsName};
ghost use Rattle.line_forms.specs.Numbers.{IsId};
ghost use Rattle.line_forms.specs.Readers.{TakesExactly, TakesOne};
ghost use Rattle.report_text.specs.Reports.{computer_line, form_line, seq_line};
ghost use Rattle.agent_text.specs.PartReadings.{HasNumber, IsFormIn, IsLater, TakesAllReports, TakesReport, around_of};

use crate::error::SavedError;
use crate::list::add;
use line_forms::Lines;
use rel_lexer::Text;
use report_text::{Form, Report, read_form, read_seq, take_rows};
use std::alloc::Global;

/// The most reports of a saved text.
pub const MOST_REPORTS: usize = 1000;

/// What the reports of a saved text have in common: its form, its computer, and the number of the next report.
#[derive(Clone, Copy)]
pub(crate) struct Frame<'a> {
    pub form: Form,
    pub computer: &'a Text,
    pub next: u64,
}

/// Takes the lines of reports, as far as they go.
pub(crate) fn take_reports(
    alloc: Global,
    frame: Frame<'_>,
    lines: &mut Lines<'_>,
) -> Result<Vec<Report>, SavedError>
    requires computer { IsName frame.computer.now }
    requires next { IsId frame.next }
    ensures { MatchResult result (λ list. TakesAllReports (around_of frame.entry) lines.old lines.new (Ok list.items))
        (λ error. TakesAllReports (around_of frame.entry) lines.old lines.new (Err error)) }
{
    let mut reports = Vec::new(alloc);
    while let Some(report) = take_report(alloc, frame, reports.as_slice(), lines)? {
        add(&mut reports, report)?;
    }
    Ok(reports)
}

/// Takes the lines of a report that can follow these, if the first of them is ahead. An error has the number of the line at which
/// it doesn't go on.
fn take_report(
    alloc: Global,
    frame: Frame<'_>,
    before: &[Report],
    lines: &mut Lines<'_>,
) -> Result<Option<Report>, SavedError>
    requires computer { IsName frame.computer.now }
    requires next { IsId frame.next }
    ensures { TakesReport (around_of frame.entry) before.now lines.old lines.new result }
{
    if !has_number(before, frame.next) {
        return Ok(None);
    }
    let Some(form) = take_form(frame.form, lines) else {
        return Ok(None);
    };
    if !take_computer(frame.computer, lines) {
        return Err(SavedError::BadLine(lines.number()));
    }
    let Some(seq) = take_seq(before, frame.next, lines) else {
        return Err(SavedError::BadLine(lines.number()));
    };
    let rows = take_rows(alloc, form, lines)?;
    if !lines.take_exactly(b"end") {
        return Err(SavedError::BadLine(lines.number()));
    }
    Ok(Some(Report {
        form,
        computer: frame.computer.copy()?,
        seq,
        rows,
    }))
}

/// Whether there is room for one report more, and a number is left for it.
fn has_number(before: &[Report], next: u64) -> bool
    requires { IsId next }
    ensures { IsTrue result ↔ HasNumber next before.now }
{
    if before.len() >= MOST_REPORTS {
        return false;
    }
    match before.last() {
        None => 1 < next,
        Some(last) => last.seq < next && next - last.seq > 1,
    }
}

/// Takes the first line of a report that can stand in a text of this form, if it is ahead.
fn take_form(around: Form, lines: &mut Lines<'_>) -> Option<Form>
    ensures { TakesOne (IsFormIn around) form_line lines.old lines.new result }
{
    let form = read_form(lines.line_ahead()?)?;
    if !is_form_in(around, form) {
        return None;
    }
    lines.skip_line();
    Some(form)
}

/// Whether a report of this form can stand in a text of that form.
fn is_form_in(around: Form, form: Form) -> bool
    ensures { IsTrue result ↔ IsFormIn around form }
{
    match around {
        Form::One => matches!(form, Form::One),
        Form::Two => true,
    }
}

/// Takes the line of this computer, and answers whether it was ahead.
pub(crate) fn take_computer(computer: &Text, lines: &mut Lines<'_>) -> bool
    ensures { TakesExactly (computer_line computer.now) lines.old lines.new result }
{
    let Some(name) = lines.rest_ahead(b"computer") else {
        return false;
    };
    if !is_same(name, computer.as_str().as_bytes()) {
        return false;
    }
    lines.skip_line();
    true
}

fn is_same(text: &[u8], other: &[u8]) -> bool
    ensures { IsTrue result ↔ (text.now ≡ other.now) }
{
    text == other
}

/// Takes the line of a number above those of these reports and below the next, if it is ahead.
fn take_seq(before: &[Report], next: u64, lines: &mut Lines<'_>) -> Option<u64>
    ensures { TakesOne (λ seq. IsId seq × IsLater before.now seq × (seq < next)) seq_line lines.old lines.new result }
{
    let seq = read_seq(lines.line_ahead()?)?;
    if seq >= next {
        return None;
    }
    if !is_later(before, seq) {
        return None;
    }
    lines.skip_line();
    Some(seq)
}

/// Whether the number is above that of the last of these reports.
fn is_later(before: &[Report], seq: u64) -> bool
    ensures { IsTrue result ↔ IsLater before.now seq }
{
    match before.last() {
        None => true,
        Some(last) => last.seq < seq,
    }
}
