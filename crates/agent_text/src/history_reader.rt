ghost use Rattle.std.specs.Prelude.{◌≡◌, map, IsTrue, ◌↔◌, MatchResult, Ok, Err, IfOk, All};
ghost use Rattle.line_forms.specs.Numbers.{IsId};
ghost use Rattle.line_forms.specs.Readers.{TakesOne};
ghost use Rattle.agent_text.specs.Histories.{AreHistories, shown_history};
ghost use Rattle.agent_text.specs.KeptTexts.{KeepsText, KeepsTextIf};
ghost use Rattle.agent_text.specs.SavedTexts.{pending_line};
ghost use Rattle.agent_text.specs.HistoryLines.{action_line};
ghost use Rattle.agent_text.specs.PartReadings.{FindsPlace, IsAbove, TakesAllHistories, TakesHistory, TakesPending, TakesPlace, untold};

use crate::attempt_reader::take_attempts;
use crate::error::SavedError;
use crate::history::History;
use crate::list::add;
use line_forms::{Lines, read_id};
use report_text::Form;
use std::alloc::Global;

/// Takes the lines of the histories, none of which is pending yet, as far as they go.
pub(crate) fn take_histories(
    alloc: Global,
    form: Form,
    lines: &mut Lines<'_>,
) -> Result<Vec<History>, SavedError>
    ensures taken { MatchResult result (λ list. TakesAllHistories form lines.old lines.new (Ok list.items))
        (λ error. TakesAllHistories form lines.old lines.new (Err error)) }
    ensures kept { IfOk result (λ list. All KeepsText list.items) }
{
    let mut histories = Vec::new(alloc);
    while let Some(history) = take_history(alloc, form, histories.as_slice(), lines)? {
        add(&mut histories, history)?;
    }
    Ok(histories)
}

/// Takes the lines of a history that can follow these, if the first of them is ahead. An error has the number of the line at which
/// it doesn't go on.
fn take_history(
    alloc: Global,
    form: Form,
    before: &[History],
    lines: &mut Lines<'_>,
) -> Result<Option<History>, SavedError>
    ensures taken { TakesHistory form (map shown_history before.now) lines.old lines.new result }
    ensures kept { IfOk result KeepsTextIf }
{
    let Some(action) = take_action(before, lines) else {
        return Ok(None);
    };
    let rows = take_attempts(alloc, form, lines)?;
    if rows.as_slice().is_empty() {
        return Err(SavedError::BadLine(lines.number()));
    }
    Ok(Some(History {
        action,
        rows,
        pending: false,
        text: None,
    }))
}

/// Takes the line of an action above those of these histories, if it is ahead.
fn take_action(before: &[History], lines: &mut Lines<'_>) -> Option<u64>
    ensures { TakesOne (λ action. IsId action
        × IsAbove (map shown_history before.now) action) action_line lines.old lines.new result }
{
    let action = read_id(lines.rest_ahead(b"action")?)?;
    if !is_above(before, action) {
        return None;
    }
    lines.skip_line();
    Some(action)
}

/// Whether the id is above that of the last of these histories.
fn is_above(before: &[History], action: u64) -> bool
    ensures { IsTrue result ↔ IsAbove (map shown_history before.now) action }
{
    match before.last() {
        None => true,
        Some(last) => last.action < action,
    }
}

/// Takes the lines of the actions that are pending, and marks their histories.
pub(crate) fn take_pending(histories: &mut [History], lines: &mut Lines<'_>)
    requires good { AreHistories (map shown_history histories.old) }
    requires told { untold (map shown_history histories.old) ≡ map shown_history histories.old }
    requires kept { All KeepsText histories.old }
    ensures taken { TakesPending (map shown_history histories.old) lines.old lines.new (map shown_history histories.new) }
    ensures kept { All KeepsText histories.new }
{
    let mut from = 0;
    while let Some(place) = take_pending_line(histories, from, lines) {
        histories[place].pending = true;
        from = place + 1;
    }
}

/// Takes the line of a pending action that stands among these histories from this place on, if it is ahead.
fn take_pending_line(histories: &[History], from: usize, lines: &mut Lines<'_>) -> Option<usize>
    requires { AreHistories (map shown_history histories.now) }
    ensures { TakesPlace (map shown_history histories.now) from lines.old lines.new result }
{
    let Some(rest) = lines.rest_ahead(b"pending") else {
        return None;
    };
    let Some(action) = read_id(rest) else {
        return None;
    };
    let Some(place) = place_of(histories, action) else {
        return None;
    };
    if place < from {
        return None;
    }
    lines.skip_line();
    Some(place)
}

/// The place of the history of this action.
fn place_of(histories: &[History], action: u64) -> Option<usize>
    requires { AreHistories (map shown_history histories.now) }
    ensures { FindsPlace (map shown_history histories.now) action result }
{
    histories
        .binary_search_by(|history| history.action.cmp(&action))
        .ok()
}
