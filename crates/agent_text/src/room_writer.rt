ghost use Rattle.std.specs.Prelude.{◌≡◌, length, map, flat_map, All};
ghost use Rattle.desk_base.specs.Rooms.{HasRoom, Fills};
ghost use Rattle.line_forms.specs.Lines.{ended_line, lines_text};
ghost use Rattle.report_text.specs.declared.form.Form.TheVariants.{Two};
ghost use Rattle.report_text.specs.Reports.{report_text};
ghost use Rattle.agent_text.specs.Histories.{pending_ids, shown_history};
ghost use Rattle.agent_text.specs.AttemptLines.{attempt_line, cleared_field};
ghost use Rattle.agent_text.specs.KeptTexts.{AreKept, AreMade, KeepsText};
ghost use Rattle.agent_text.specs.SavedTexts.{pending_line, saved_text};
ghost use Rattle.agent_text.specs.PartWritings.{begun_text, ended_text, head_text, pending_text};
ghost use Rattle.agent_text.specs.HistoryLines.{history_text};

use crate::histories::Histories;
use crate::history::History;
use crate::kept_histories::KeptHistories;
use crate::made_reports::MadeReports;
use act_rules::Row;
use desk_base::Room;
use rel_lexer::Text;
use report_text::{Report, fill_end, fill_note, fill_report, outcome_field};

/// Appends the text that an agent saves, for which there is room. It takes no memory.
pub fn fill_saved(
    computer: &Text,
    next: u64,
    histories: &Histories,
    reports: MadeReports<'_>,
    room: &mut Room,
)
    requires made { AreMade reports }
    requires room { HasRoom room.old (length (saved_text (record {
      computer = computer.now;
      next = next;
      histories = histories.now;
      reports = reports.reports.now;
    }))) }
    ensures { Fills room.old room.new (saved_text (record {
      computer = computer.now;
      next = next;
      histories = histories.now;
      reports = reports.entry.reports.now;
    })) }
{
    fill_head(computer, next, room);
    fill_kept(histories.kept(), room);
    fill_pending(histories.as_slice(), room);
    fill_made(reports, room);
    room.extend(b"end\n")
}

/// Appends the first three lines.
fn fill_head(computer: &Text, next: u64, room: &mut Room)
    requires { HasRoom room.old (length (head_text computer.now next)) }
    ensures { Fills room.old room.new (head_text computer.now next) }
{
    room.extend(b"agent 2\ncomputer ");
    room.extend(computer.as_str().as_bytes());
    room.extend(b"\nnext ");
    room.decimal(next);
    room.push(b'\n')
}

/// Appends the lines of histories, of which those of the first are joined already.
fn fill_kept(histories: KeptHistories<'_>, room: &mut Room)
    requires kept { AreKept histories.list.now histories.made.now }
    requires room { HasRoom room.old (length (flat_map history_text (map shown_history histories.list.now))) }
    ensures { Fills room.old room.new (flat_map history_text (map shown_history histories.entry.list.now)) }
{
    room.extend(histories.made.text());
    fill_histories(&histories.list[histories.made.count()..], room);
}

/// Appends the lines of histories.
fn fill_histories(histories: &[History], room: &mut Room)
    requires kept { All KeepsText histories.now }
    requires room { HasRoom room.old (length (flat_map history_text (map shown_history histories.now))) }
    ensures { Fills room.old room.new (flat_map history_text (map shown_history histories.now)) }
{
    for history in histories {
        fill_history(history, room);
    }
}

/// Appends the lines of a history: the bytes that it keeps, if it does.
fn fill_history(history: &History, room: &mut Room)
    requires kept { KeepsText history.now }
    requires room { HasRoom room.old (length (history_text (shown_history history.now))) }
    ensures { Fills room.old room.new (history_text (shown_history history.now)) }
{
    match &history.text {
        Some(text) => room.extend(text.as_slice()),
        None => fill_lines(history, room),
    }
}

/// Writes the lines of a history, and appends them.
pub(crate) fn fill_lines(history: &History, room: &mut Room)
    requires { HasRoom room.old (length (history_text (shown_history history.now))) }
    ensures { Fills room.old room.new (history_text (shown_history history.now)) }
{
    room.extend(b"action ");
    room.decimal(history.action);
    room.push(b'\n');
    fill_attempts(history.rows.as_slice(), room)
}

/// Appends the lines of attempts.
fn fill_attempts(rows: &[Row], room: &mut Room)
    requires { HasRoom room.old (length (lines_text (map (attempt_line Two) rows.now))) }
    ensures { Fills room.old room.new (lines_text (map (attempt_line Two) rows.now)) }
{
    for row in rows {
        fill_attempt(row, room);
    }
}

/// Appends the line of an attempt, with its LF.
fn fill_attempt(row: &Row, room: &mut Room)
    requires { HasRoom room.old (length (ended_line (attempt_line Two row.now))) }
    ensures { Fills room.old room.new (ended_line (attempt_line Two row.now)) }
{
    room.extend(b"attempt ");
    fill_begun(row, room);
    fill_ended(row, room);
    fill_note(row.note, room);
    room.push(b'\n')
}

fn fill_begun(row: &Row, room: &mut Room)
    requires { HasRoom room.old (length (begun_text row.now)) }
    ensures { Fills room.old room.new (begun_text row.now) }
{
    room.decimal(u64::from(row.number));
    room.push(b' ');
    room.signed_decimal(row.begun)
}

fn fill_ended(row: &Row, room: &mut Room)
    requires { HasRoom room.old (length (ended_text row.now)) }
    ensures { Fills room.old room.new (ended_text row.now) }
{
    room.push(b' ');
    room.extend(outcome_field(row.end));
    room.push(b' ');
    fill_end(row.end, room);
    room.push(b' ');
    fill_cleared(row.cleared, room)
}

/// Appends the moment at which an attempt was cleared, or `-`.
fn fill_cleared(cleared: Option<i64>, room: &mut Room)
    requires { HasRoom room.old (length (cleared_field cleared)) }
    ensures { Fills room.old room.new (cleared_field cleared) }
{
    match cleared {
        None => room.push(b'-'),
        Some(moment) => room.signed_decimal(moment),
    }
}

/// Appends the lines of the pending actions.
fn fill_pending(histories: &[History], room: &mut Room)
    requires { HasRoom room.old (length (lines_text (map pending_line (pending_ids (map shown_history histories.now))))) }
    ensures { Fills room.old room.new (lines_text (map pending_line (pending_ids (map shown_history histories.now)))) }
{
    for history in histories {
        fill_pending_line(history, room);
    }
}

/// Appends the line of a history that is pending, and nothing for another.
fn fill_pending_line(history: &History, room: &mut Room)
    requires { HasRoom room.old (length (pending_text (shown_history history.now))) }
    ensures { Fills room.old room.new (pending_text (shown_history history.now)) }
{
    if history.pending {
        room.extend(b"pending ");
        room.decimal(history.action);
        room.push(b'\n')
    }
}

/// Appends the texts of reports, of which the first are made already.
fn fill_made(reports: MadeReports<'_>, room: &mut Room)
    requires made { AreMade reports }
    requires room { HasRoom room.old (length (flat_map report_text reports.reports.now)) }
    ensures { Fills room.old room.new (flat_map report_text reports.entry.reports.now) }
{
    room.extend(reports.made.text());
    fill_reports(&reports.reports[reports.made.count()..], room);
}

/// Appends the texts of reports.
fn fill_reports(reports: &[Report], room: &mut Room)
    requires { HasRoom room.old (length (flat_map report_text reports.now)) }
    ensures { Fills room.old room.new (flat_map report_text reports.now) }
{
    for report in reports {
        fill_report(report, room);
    }
}
