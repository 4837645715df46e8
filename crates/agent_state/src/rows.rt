// What is read off the rows of actions.
ghost use Rattle.std.specs.Prelude.{◌≡◌, ◌<◌, ◌≤◌, ◌∷◌, ◌++◌, [], length, true, vec_capacity};
ghost use Rattle.std.specs.Option.{option_map};
ghost use Rattle.act_rules.specs.Rows.{IsRows, last_row};
ghost use Rattle.agent_text.specs.Histories.{report_row, report_rows, reported_note, shown_history};
ghost use Rattle.agent_attempt.specs.Stages.{shown_attempt};
ghost use Rattle.agent_state.specs.Lookups.{rows_if};
ghost use Rattle.agent_state.specs.States.{is_of_another, last_runs};

use act_rules::{Note, Outcome, Row, Rows};
use agent_attempt::Attempt;
use agent_text::History;
use report_text::ReportRow;

/// The rows of an action, none where it has none.
pub fn rows_of(rows: Option<&Rows>) -> &[Row]
    ensures value { result.now ≡ rows_if rows.entry }
    ensures rows { IsRows result.now }
{
    match rows {
        Some(rows) => rows.as_slice(),
        None => &[],
    }
}

/// Whether the last row of an action runs: it has no end.
pub fn is_running(history: &History) -> bool
    ensures { result ≡ last_runs (last_row history.now.rows.rows) }
{
    match history.rows.as_slice().last() {
        Some(row) => row.end.is_none(),
        None => false,
    }
}

/// Whether the attempt that is held, if one is, is of another action.
pub fn is_of_another(action: u64, held: &Option<Attempt>) -> bool
    ensures { result ≡ is_of_another action (option_map shown_attempt held.now) }
{
    match held {
        Some(attempt) => attempt.action_id() != action,
        None => true,
    }
}

/// Adds what is reported of an action, if it is pending: its last row. There is room for it. It takes no memory.
pub fn add_row(history: &History, rows: &mut Vec<ReportRow>)
    requires { history.now.pending ≡ true → length rows.old.items < vec_capacity rows.old }
    ensures rows { rows.new.items ≡ rows.old.items ++ report_rows (shown_history history.now ∷ []) }
    ensures room { vec_capacity rows.old ≤ vec_capacity rows.new }
{
    if history.pending
        && let Some(row) = history.rows.as_slice().last()
    {
        rows.push(report_row(history.action, row)).unwrap();
    }
}

/// What is reported of an attempt.
fn report_row(action: u64, row: &Row) -> ReportRow
    ensures { result ≡ report_row action row.now }
{
    ReportRow {
        action,
        number: row.number,
        begun: row.begun,
        end: row.end,
        note: reported_note(row.end, row.note),
    }
}

/// What is reported of a note: a failure without a place is reported at 0 and 0.
fn reported_note(end: Option<(i64, Outcome)>, note: Note) -> Note
    ensures { result ≡ reported_note end note }
{
    match end {
        Some((_, Outcome::Failed)) => Note {
            place: Some(note.place.unwrap_or((0, 0))),
            ..note
        },
        _ => note,
    }
}
