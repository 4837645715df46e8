// The fields of a row, appended to bytes that grow.
ghost use Rattle.std.specs.Prelude.{◌≡◌, ◌++◌, OnOk};
ghost use Rattle.line_forms.specs.FieldLists.{line_of};
ghost use Rattle.report_text.specs.declared.form.Form.TheVariants.{Two};
ghost use Rattle.report_text.specs.RowLines.{component_field, end_field, exit_field, line_field, note_text, row_fields};
ghost use Rattle.report_text.specs.Writings.{numbers_text, times_text};

use crate::report_row::ReportRow;
use crate::room_writer::outcome_field;
use act_rules::{Note, Outcome};
use desk_base::{Bytes, decimal};
use line_forms::write_signed_number;
use std::alloc::AllocError;

/// Appends the fields of a row, as a report of form Two has them.
pub fn write_row_fields(row: &ReportRow, out: &mut Bytes) -> Result<(), AllocError>
    ensures { OnOk result (out.new ≡ out.old ++ line_of (row_fields Two row.now)) }
{
    write_numbers(row, out)?;
    write_times(row, out)?;
    write_note(row.note, out)
}

/// Appends the action and the number of the attempt.
fn write_numbers(row: &ReportRow, out: &mut Bytes) -> Result<(), AllocError>
    ensures { OnOk result (out.new ≡ out.old ++ numbers_text row.now) }
{
    decimal(row.action, out)?;
    out.push(b' ')?;
    decimal(u64::from(row.number), out)
}

/// Appends the outcome and the moments, each after a space.
fn write_times(row: &ReportRow, out: &mut Bytes) -> Result<(), AllocError>
    ensures { OnOk result (out.new ≡ out.old ++ times_text row.now) }
{
    out.push(b' ')?;
    out.extend(outcome_field(row.end))?;
    out.push(b' ')?;
    write_signed_number(row.begun, out)?;
    out.push(b' ')?;
    write_end(row.end, out)
}

/// Appends the moment of an end, or `-`.
fn write_end(end: Option<(i64, Outcome)>, out: &mut Bytes) -> Result<(), AllocError>
    ensures { OnOk result (out.new ≡ out.old ++ end_field end) }
{
    match end {
        None => out.push(b'-'),
        Some((moment, _)) => write_signed_number(moment, out),
    }
}

/// Appends the exit code and the place of a failure, each part after a space.
fn write_note(note: Note, out: &mut Bytes) -> Result<(), AllocError>
    ensures { OnOk result (out.new ≡ out.old ++ note_text note) }
{
    out.push(b' ')?;
    write_exit(note.exit, out)?;
    out.push(b' ')?;
    write_component(note.place, out)?;
    out.push(b' ')?;
    write_failed_line(note.place, out)
}

/// Appends an exit code, or `-`.
fn write_exit(exit: Option<i64>, out: &mut Bytes) -> Result<(), AllocError>
    ensures { OnOk result (out.new ≡ out.old ++ exit_field exit) }
{
    match exit {
        None => out.push(b'-'),
        Some(exit) => write_signed_number(exit, out),
    }
}

/// Appends the component of a failure's place, or `-`.
fn write_component(place: Option<(u32, u32)>, out: &mut Bytes) -> Result<(), AllocError>
    ensures { OnOk result (out.new ≡ out.old ++ component_field place) }
{
    match place {
        None => out.push(b'-'),
        Some((component, _)) => decimal(u64::from(component), out),
    }
}

/// Appends the line of a failure's place, or `-`.
fn write_failed_line(place: Option<(u32, u32)>, out: &mut Bytes) -> Result<(), AllocError>
    ensures { OnOk result (out.new ≡ out.old ++ line_field place) }
{
    match place {
        None => out.push(b'-'),
        Some((_, line)) => decimal(u64::from(line), out),
    }
}
