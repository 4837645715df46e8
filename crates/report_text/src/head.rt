ghost use Rattle.std.specs.Prelude.{option_copied};
ghost use Rattle.line_forms.specs.Names.{IsName};
ghost use Rattle.line_forms.specs.Numbers.{IsId};
ghost use Rattle.report_text.specs.Reports.{form_line, computer_line, seq_line};
ghost use Rattle.line_forms.specs.Readers.{Spells, IsAny, TakesOne};

use crate::form::Form;
use line_forms::{Lines, after_word, read_id, read_name};

/// Reads the first line of a report: its form.
pub fn read_form(line: &[u8]) -> Option<Form>
    ensures { Spells IsAny form_line line.now result }
{
    match after_word(line, b"report")? {
        b"1" => Some(Form::One),
        b"2" => Some(Form::Two),
        _ => None,
    }
}

fn read_computer(line: &[u8]) -> Option<&str>
    ensures { Spells IsName computer_line line.now (option_copied result) }
{
    read_name(after_word(line, b"computer")?)
}

/// Reads the line of the report's number.
pub fn read_seq(line: &[u8]) -> Option<u64>
    ensures { Spells IsId seq_line line.now result }
{
    read_id(after_word(line, b"seq")?)
}

/// Takes the line of the form, if it is ahead.
pub(crate) fn take_form(lines: &mut Lines<'_>) -> Option<Form>
    ensures { TakesOne IsAny form_line lines.old lines.new result }
{
    let form = read_form(lines.line_ahead()?)?;
    lines.skip_line();
    Some(form)
}

/// Takes the line of the computer's name, if it is ahead.
pub(crate) fn take_computer<'a>(lines: &mut Lines<'a>) -> Option<&'a str>
    ensures { TakesOne IsName computer_line lines.old lines.new (option_copied result) }
{
    let computer = read_computer(lines.line_ahead()?)?;
    lines.skip_line();
    Some(computer)
}

/// Takes the line of the report's number, if it is ahead.
pub(crate) fn take_seq(lines: &mut Lines<'_>) -> Option<u64>
    ensures { TakesOne IsId seq_line lines.old lines.new result }
{
    let seq = read_seq(lines.line_ahead()?)?;
    lines.skip_line();
    Some(seq)
}
