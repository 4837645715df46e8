ghost use Rattle.std.specs.Prelude.{◌≡◌};
ghost use Rattle.line_forms.specs.Names.{IsName};
ghost use Rattle.line_forms.specs.Numbers.{IsId};
ghost use Rattle.line_forms.specs.Readers.{IsAny, TakesOne};
ghost use Rattle.agent_text.specs.SavedTexts.{ReadsSaved, agent_line, next_line};
ghost use Rattle.agent_text.specs.PartReadings.{TakesFrame};

use crate::error::SavedError;
use crate::histories::Histories;
use crate::history_reader::{take_histories, take_pending};
use crate::report_reader::{Frame, take_computer, take_reports};
use crate::saved::{Reports, Saved};
use line_forms::{Lines, read_id};
use rel_lexer::Text;
use report_text::Form;
use std::alloc::Global;

/// Reads what the agent of this computer saved, in either form. A text that isn't that is answered by its first bad line, which may
/// be one that names another computer.
pub fn read_saved(alloc: Global, computer: &Text, text: &[u8]) -> Result<Saved, SavedError>
    requires { IsName computer.now }
    ensures { ReadsSaved computer.now text.now result }
{
    let mut lines = Lines::new(text);
    let frame = take_frame(computer, &mut lines)?;
    let mut histories = take_histories(alloc, frame.form, &mut lines)?;
    take_pending(&mut histories, &mut lines);
    let reports = take_reports(alloc, frame, &mut lines)?;
    if !lines.take_exactly(b"end") {
        return Err(SavedError::BadLine(lines.number()));
    }
    if !lines.is_over() {
        return Err(SavedError::BadLine(lines.number()));
    }
    Ok(Saved {
        computer: computer.copy()?,
        next: frame.next,
        histories: Histories::from_vec(histories),
        reports: Reports::from_vec(reports),
    })
}

/// Takes the first three lines.
fn take_frame<'a>(computer: &'a Text, lines: &mut Lines<'_>) -> Result<Frame<'a>, SavedError>
    ensures { TakesFrame computer.now lines.old lines.new result }
{
    let Some(form) = take_form(lines) else {
        return Err(SavedError::BadLine(lines.number()));
    };
    if !take_computer(computer, lines) {
        return Err(SavedError::BadLine(lines.number()));
    }
    let Some(next) = take_next(lines) else {
        return Err(SavedError::BadLine(lines.number()));
    };
    Ok(Frame {
        form,
        computer,
        next,
    })
}

/// Takes the first line, if it is ahead.
fn take_form(lines: &mut Lines<'_>) -> Option<Form>
    ensures { TakesOne IsAny agent_line lines.old lines.new result }
{
    if lines.take_exactly(b"agent 1") {
        return Some(Form::One);
    }
    if lines.take_exactly(b"agent 2") {
        return Some(Form::Two);
    }
    None
}

/// Takes the line of the next report's number, if it is ahead.
fn take_next(lines: &mut Lines<'_>) -> Option<u64>
    ensures { TakesOne IsId next_line lines.old lines.new result }
{
    let next = read_id(lines.rest_ahead(b"next")?)?;
    lines.skip_line();
    Some(next)
}
