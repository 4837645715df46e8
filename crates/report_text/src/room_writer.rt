ghost use Rattle.std.specs.Prelude.{◌≡◌, ◌∷◌, length};
ghost use Rattle.std.specs.Fmt.{signed_decimal};
ghost use Rattle.desk_base.specs.Rooms.{HasRoom, Fills};
ghost use Rattle.line_forms.specs.FieldLists.{line_of};
ghost use Rattle.line_forms.specs.Lines.{ended_line};
ghost use Rattle.report_text.specs.Reports.{form_line, report_text};
ghost use Rattle.report_text.specs.RowLines.{note_text, outcome_field, row_fields, row_line};
ghost use Rattle.report_text.specs.Writings.{added_text, head_text, numbers_text, times_text};

use crate::field_writer::{fill_component, fill_end, fill_exit, fill_line};
use crate::form::Form;
use crate::report::Report;
use crate::report_row::ReportRow;
use act_rules::{Note, Outcome};
use desk_base::Room;

/// Appends the text of a report, for which there is room. It takes no memory.
pub fn fill_report(report: &Report, room: &mut Room)
    requires { HasRoom room.old (length (report_text report.now)) }
    ensures { Fills room.old room.new (report_text report.now) }
{
    fill_head(report, room);
    for row in report.rows.as_slice() {
        fill_row(report.form, row, room);
    }
    room.extend(b"end\n")
}

/// Appends the first three lines, each with its LF.
fn fill_head(report: &Report, room: &mut Room)
    requires { HasRoom room.old (length (head_text report.now)) }
    ensures { Fills room.old room.new (head_text report.now) }
{
    room.extend(form_bytes(report.form));
    room.extend(b"computer ");
    room.extend(report.computer.as_str().as_bytes());
    room.extend(b"\nseq ");
    room.decimal(report.seq);
    room.push(b'\n')
}

fn form_bytes(form: Form) -> &'static [u8]
    ensures { result.now ≡ ended_line (form_line form) }
{
    match form {
        Form::One => b"report 1\n",
        Form::Two => b"report 2\n",
    }
}

/// Appends the line of a row, with its LF.
fn fill_row(form: Form, row: &ReportRow, room: &mut Room)
    requires { HasRoom room.old (length (ended_line (row_line form row.now))) }
    ensures { Fills room.old room.new (ended_line (row_line form row.now)) }
{
    room.extend(b"row ");
    fill_row_fields(form, row, room);
    room.push(b'\n')
}

/// Appends the fields of a row, without the word before them, for which there is room. It takes no memory.
pub fn fill_row_fields(form: Form, row: &ReportRow, room: &mut Room)
    requires { HasRoom room.old (length (line_of (row_fields form row.now))) }
    ensures { Fills room.old room.new (line_of (row_fields form row.now)) }
{
    fill_numbers(row, room);
    fill_times(row, room);
    fill_added(form, row.note, room)
}

fn fill_numbers(row: &ReportRow, room: &mut Room)
    requires { HasRoom room.old (length (numbers_text row.now)) }
    ensures { Fills room.old room.new (numbers_text row.now) }
{
    room.decimal(row.action);
    room.push(b' ');
    room.decimal(u64::from(row.number))
}

fn fill_times(row: &ReportRow, room: &mut Room)
    requires { HasRoom room.old (length (times_text row.now)) }
    ensures { Fills room.old room.new (times_text row.now) }
{
    fill_word(outcome_field(row.end), room);
    fill_signed(row.begun, room);
    room.push(b' ');
    fill_end(row.end, room)
}

/// The word of an outcome, or `running` where there is no end.
pub fn outcome_field(end: Option<(i64, Outcome)>) -> &'static [u8]
    ensures { result.now ≡ outcome_field end }
{
    match end {
        None => b"running",
        Some((_, Outcome::Fixed)) => b"fixed",
        Some((_, Outcome::Failed)) => b"failed",
        Some((_, Outcome::Interrupted)) => b"interrupted",
    }
}

/// Appends a space and a word.
fn fill_word(word: &[u8], room: &mut Room)
    requires { HasRoom room.old (length (32 ∷ word.now)) }
    ensures { Fills room.old room.new (32 ∷ word.now) }
{
    room.push(b' ');
    room.extend(word)
}

fn fill_signed(number: i64, room: &mut Room)
    requires { HasRoom room.old (length (32 ∷ signed_decimal number)) }
    ensures { Fills room.old room.new (32 ∷ signed_decimal number) }
{
    room.push(b' ');
    room.signed_decimal(number)
}

/// Appends what a form adds.
fn fill_added(form: Form, note: Note, room: &mut Room)
    requires { HasRoom room.old (length (added_text form note)) }
    ensures { Fills room.old room.new (added_text form note) }
{
    match form {
        Form::One => {}
        Form::Two => fill_note(note, room),
    }
}

/// Appends the exit code and the place of a failure, each part after a space. It takes no memory.
pub fn fill_note(note: Note, room: &mut Room)
    requires { HasRoom room.old (length (note_text note)) }
    ensures { Fills room.old room.new (note_text note) }
{
    room.push(b' ');
    fill_exit(note.exit, room);
    room.push(b' ');
    fill_component(note.place, room);
    room.push(b' ');
    fill_line(note.place, room)
}
