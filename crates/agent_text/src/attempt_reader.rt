ghost use Rattle.std.specs.Prelude.{◌≡◌, ◌∷◌, ◌++◌, ℕ, List, IfOk, IfSome, IsTrue, ◌↔◌, MatchOption};
ghost use Rattle.desk_base.specs.Moments.{IsMoment};
ghost use Rattle.act_rules.specs.declared.row.Row.{Row};
ghost use Rattle.act_rules.specs.Rows.{HasEnded, last_row};
ghost use Rattle.line_forms.specs.FieldLists.{line_of};
ghost use Rattle.line_forms.specs.Readers.{Spells, TakesAll, TakesOne};
ghost use Rattle.agent_text.specs.AttemptLines.{attempt_fields, attempt_line, cleared_field};
ghost use Rattle.report_text.specs.ReportRows.{IsExit, IsPlace};
ghost use Rattle.agent_text.specs.SavedRows.{IsSavedRow};
ghost use Rattle.agent_text.specs.PartReadings.{CanBeNext, IsAttempt, IsBare, IsNoted, SpellsBare};

use act_rules::{NO_NOTE, Outcome, Row, Rows};
use line_forms::{Fields, Lines, after_word, read_moment};
use report_text::{Form, read_attempt, read_end, take_note};
use std::alloc::{AllocError, Global};

/// The fields of an attempt that both forms have.
#[derive(Clone, Copy)]
struct BareFields<'a> {
    number: &'a [u8],
    begun: &'a [u8],
    outcome: &'a [u8],
    end: &'a [u8],
    cleared: &'a [u8],
}

/// Takes the lines of attempts, as far as they go.
pub(crate) fn take_attempts(
    alloc: Global,
    form: Form,
    lines: &mut Lines<'_>,
) -> Result<Rows, AllocError>
    ensures { IfOk result (λ rows. TakesAll (CanBeNext form) (attempt_line form) lines.old lines.new rows.rows) }
{
    let mut rows = Rows::new(alloc);
    while let Some(row) = take_attempt(form, rows.as_slice(), lines) {
        rows.push(row)?;
    }
    Ok(rows)
}

/// Takes the line of an attempt that can follow these, if it is ahead.
fn take_attempt(form: Form, rows: &[Row], lines: &mut Lines<'_>) -> Option<Row>
    ensures { TakesOne (CanBeNext form rows.now) (attempt_line form) lines.old lines.new result }
{
    let row = read_attempt_line(form, lines.line_ahead()?)?;
    if row.number as usize - 1 != rows.len() {
        return None;
    }
    if !has_ended(rows) {
        return None;
    }
    lines.skip_line();
    Some(row)
}

/// Whether the last of these rows has ended, if there is one.
fn has_ended(rows: &[Row]) -> bool
    ensures { IsTrue result ↔ IfSome (last_row rows.now) HasEnded }
{
    match rows.last() {
        None => true,
        Some(row) => row.end.is_some(),
    }
}

/// Reads the line of an attempt in a text of this form, its word `attempt` with it.
fn read_attempt_line(form: Form, line: &[u8]) -> Option<Row>
    ensures { Spells (IsAttempt form) (attempt_line form) line.now result }
{
    read_attempt_fields(form, after_word(line, b"attempt")?)
}

/// Reads the fields of an attempt, without the word before them.
fn read_attempt_fields(form: Form, rest: &[u8]) -> Option<Row>
    ensures { Spells (IsAttempt form) (λ row. line_of (attempt_fields form row)) rest.now result }
{
    let mut fields = Fields::new(rest);
    let Some(row) = take_attempt_fields(form, &mut fields) else {
        return None;
    };
    if !fields.is_over() {
        return None;
    }
    if !is_saved_row(&row) {
        return None;
    }
    Some(row)
}

/// Takes the fields of an attempt, with any note that the form has.
fn take_attempt_fields(form: Form, fields: &mut Fields<'_>) -> Option<Row>
    ensures { MatchOption result
        ((row : Row) (more : List (List ℕ)) → IsNoted form row → ¬ (fields.old ≡ attempt_fields form row ++ more))
        (λ row. IsNoted form row × (fields.old ≡ attempt_fields form row ++ fields.new)) }
{
    let Some(taken) = take_bare_fields(fields) else {
        return None;
    };
    let Some(bare) = read_bare_row(taken) else {
        return None;
    };
    let Some(note) = take_note(form, fields) else {
        return None;
    };
    Some(Row { note, ..bare })
}

fn take_bare_fields<'a>(fields: &mut Fields<'a>) -> Option<BareFields<'a>>
    ensures { MatchOption result
        ((a b c d e : List ℕ) (more : List (List ℕ)) → ¬ (fields.old ≡ a ∷ b ∷ c ∷ d ∷ e ∷ more))
        (λ bare. fields.old ≡ bare.number.now ∷ bare.begun.now ∷ bare.outcome.now ∷ bare.end.now
        ∷ bare.cleared.now ∷ fields.new) }
{
    Some(BareFields {
        number: fields.take_field()?,
        begun: fields.take_field()?,
        outcome: fields.take_field()?,
        end: fields.take_field()?,
        cleared: fields.take_field()?,
    })
}

/// Reads an attempt without its note.
fn read_bare_row(fields: BareFields<'_>) -> Option<Row>
    ensures { MatchOption result ((row : Row) → IsBare row → ¬ SpellsBare fields.entry row)
        (λ row. IsBare row × SpellsBare fields.entry row) }
{
    Some(Row {
        number: read_attempt(fields.number)?,
        begun: read_moment(fields.begun)?,
        end: read_end(fields.outcome, fields.end)?,
        cleared: read_cleared(fields.cleared)?,
        note: NO_NOTE,
    })
}

/// Reads the moment at which an attempt was cleared, or `-`.
fn read_cleared(text: &[u8]) -> Option<Option<i64>>
    ensures { Spells (λ cleared. IfSome cleared IsMoment) cleared_field text.now result }
{
    if text == b"-".as_slice() {
        return Some(None);
    }
    let moment = read_moment(text)?;
    Some(Some(moment))
}

/// Whether an attempt that ended so, or runs, can have this note and can have been cleared.
fn is_saved_row(row: &Row) -> bool
    ensures { IfSome row.now.note.exit IsExit → IfSome row.now.note.place IsPlace → (IsTrue result ↔ IsSavedRow row.now) }
{
    let note = row.note;
    match row.end {
        None => note.is_empty() && row.cleared.is_none(),
        Some((_, Outcome::Fixed)) => note.place.is_none(),
        Some((_, Outcome::Failed)) => true,
        Some((_, Outcome::Interrupted)) => note.is_empty(),
    }
}
