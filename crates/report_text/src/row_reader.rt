ghost use Rattle.std.specs.Prelude.{◌≡◌, ℕ, List, ◌∷◌, ◌++◌, IsTrue, ◌↔◌, MatchOption};
ghost use Rattle.act_rules.specs.declared.row.Note.{Note};
ghost use Rattle.report_text.specs.declared.report_row.ReportRow.{ReportRow};
ghost use Rattle.line_forms.specs.FieldLists.{line_of};
ghost use Rattle.report_text.specs.ReportRows.{IsAdded, IsReportRow, IsNoteAt, IsNoteIn};
ghost use Rattle.report_text.specs.RowLines.{row_line, row_fields, added_fields};
ghost use Rattle.report_text.specs.Readings.{SpellsBareRow, IsBareRow};
ghost use Rattle.line_forms.specs.Readers.{Spells};

use crate::field::{read_attempt, read_end, read_exit, read_place};
use crate::form::Form;
use crate::report_row::ReportRow;
use act_rules::{NO_NOTE, Note, Outcome};
use line_forms::{Fields, after_word, read_id, read_moment};

/// The fields of a row that both forms have.
#[derive(Clone, Copy)]
struct RowFields<'a> {
    action: &'a [u8],
    number: &'a [u8],
    outcome: &'a [u8],
    begun: &'a [u8],
    end: &'a [u8],
}

/// Reads the line of a row in a report of this form, its word `row` with it.
pub fn read_row(form: Form, line: &[u8]) -> Option<ReportRow>
    ensures { Spells (IsReportRow form) (row_line form) line.now result }
{
    read_row_fields(form, after_word(line, b"row")?)
}

/// Reads the fields of a row, without the word before them.
pub fn read_row_fields(form: Form, rest: &[u8]) -> Option<ReportRow>
    ensures { Spells (IsReportRow form) (λ row. line_of (row_fields form row)) rest.now result }
{
    let mut fields = Fields::new(rest);
    let Some(row) = take_row(form, &mut fields) else {
        return None;
    };
    if !fields.is_over() {
        return None;
    }
    Some(row)
}

/// Takes the fields of a row, which others may follow. Where those ahead aren't a row's, some may have been taken.
pub fn take_row(form: Form, fields: &mut Fields<'_>) -> Option<ReportRow>
    ensures { MatchOption result
        ((row : ReportRow) (more : List (List ℕ)) → IsReportRow form row → ¬ (fields.old ≡ row_fields form row ++ more))
        (λ row. IsReportRow form row × (fields.old ≡ row_fields form row ++ fields.new)) }
{
    let Some(taken) = take_row_fields(fields) else {
        return None;
    };
    let Some(bare) = read_bare_row(taken) else {
        return None;
    };
    let Some(note) = take_note(form, fields) else {
        return None;
    };
    if !is_note_in(form, bare.end, note) {
        return None;
    }
    Some(ReportRow { note, ..bare })
}

fn take_row_fields<'a>(fields: &mut Fields<'a>) -> Option<RowFields<'a>>
    ensures { MatchOption result
        ((a b c d e : List ℕ) (more : List (List ℕ)) → ¬ (fields.old ≡ a ∷ b ∷ c ∷ d ∷ e ∷ more))
        (λ row. fields.old ≡ row.action.now ∷ row.number.now ∷ row.outcome.now ∷ row.begun.now
        ∷ row.end.now ∷ fields.new) }
{
    Some(RowFields {
        action: fields.take_field()?,
        number: fields.take_field()?,
        outcome: fields.take_field()?,
        begun: fields.take_field()?,
        end: fields.take_field()?,
    })
}

/// Reads a row without its note.
fn read_bare_row(fields: RowFields<'_>) -> Option<ReportRow>
    ensures { MatchOption result
        ((row : ReportRow) → IsBareRow row → ¬ SpellsBareRow fields.entry row)
        (λ row. IsBareRow row × SpellsBareRow fields.entry row) }
{
    Some(ReportRow {
        action: read_id(fields.action)?,
        number: read_attempt(fields.number)?,
        begun: read_moment(fields.begun)?,
        end: read_end(fields.outcome, fields.end)?,
        note: NO_NOTE,
    })
}

/// Takes the fields that a form adds to a row or an attempt, which others may follow. Where those ahead aren't such, some may have
/// been taken.
pub fn take_note(form: Form, fields: &mut Fields<'_>) -> Option<Note>
    ensures { MatchOption result
        ((note : Note) (more : List (List ℕ)) → IsAdded form note → ¬ (fields.old ≡ added_fields form note ++ more))
        (λ note. IsAdded form note × (fields.old ≡ added_fields form note ++ fields.new)) }
{
    match form {
        Form::One => Some(NO_NOTE),
        Form::Two => {
            let exit = read_exit(fields.take_field()?)?;
            let component = fields.take_field()?;
            let place = read_place(component, fields.take_field()?)?;
            Some(Note { exit, place })
        }
    }
}

/// Whether a row that ended so can have this note in a report of the form, whose rows have such notes.
fn is_note_in(form: Form, end: Option<(i64, Outcome)>, note: Note) -> bool
    requires { IsAdded form note }
    ensures { IsTrue result ↔ IsNoteIn form end note }
{
    match form {
        Form::One => true,
        Form::Two => is_note_at(end, note),
    }
}

/// Whether a row that ended so can have this note in a report of form Two.
pub fn is_note_at(end: Option<(i64, Outcome)>, note: Note) -> bool
    ensures { IsTrue result ↔ IsNoteAt end note }
{
    match end {
        Some((_, Outcome::Fixed)) => note.place.is_none(),
        Some((_, Outcome::Failed)) => note.place.is_some(),
        _ => note.is_empty(),
    }
}
