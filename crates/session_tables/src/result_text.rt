// What is shown of a result.
ghost use Rattle.std.specs.Prelude.{◌≡◌, ◌++◌, IfOk, OnOk};
ghost use Rattle.report_text.specs.RowLines.{end_field, exit_field};
ghost use Rattle.line_forms.specs.Lines.{ended_line};
ghost use Rattle.session_tables.specs.Inside.{attempt_text, moments_text};
ghost use Rattle.session_tables.specs.Paths.{result_text};

use act_rules::Outcome;
use desk_base::{Bytes, decimal};
use desk_keep::{ReportRow, ResultRow};
use line_forms::write_signed_number;
use report_text::outcome_field;
use std::alloc::{AllocError, Global};

/// The file of a result: a line each for its outcome, the number of the attempt, when it began and ended, the number of the report that
/// told it last, and its exit code; `-` stands for an end or an exit code that isn't there.
#[tactic(auto, unfolding(crate::specs::Paths::result_text))]
pub(crate) fn result_text(alloc: Global, last: &ResultRow) -> Result<Bytes, AllocError>
    ensures { IfOk result (λ text. text ≡ result_text last.now) }
{
    let mut out = Bytes::new(alloc);
    write_attempt(&last.row, &mut out)?;
    write_moments(&last.row, &mut out)?;
    decimal(last.seq, &mut out)?;
    out.push(b'\n')?;
    write_or_dash(last.row.note.exit, &mut out)?;
    Ok(out)
}

/// Appends the lines of the outcome and of the number of the attempt.
fn write_attempt(row: &ReportRow, out: &mut Bytes) -> Result<(), AllocError>
    ensures { OnOk result (out.new ≡ out.old ++ attempt_text row.now) }
{
    out.extend(outcome_field(row.end))?;
    out.push(b'\n')?;
    decimal(u64::from(row.number), out)?;
    out.push(b'\n')
}

/// Appends the lines of the beginning and of the end.
fn write_moments(row: &ReportRow, out: &mut Bytes) -> Result<(), AllocError>
    ensures { OnOk result (out.new ≡ out.old ++ moments_text row.now) }
{
    write_signed_number(row.begun, out)?;
    out.push(b'\n')?;
    write_or_dash(end_moment(row.end), out)
}

/// The moment of an end, if there is one.
fn end_moment(end: Option<(i64, Outcome)>) -> Option<i64>
    ensures { exit_field result ≡ end_field end }
{
    match end {
        Some((moment, _)) => Some(moment),
        None => None,
    }
}

/// Appends the line of a number, or of `-` where there is none.
fn write_or_dash(number: Option<i64>, out: &mut Bytes) -> Result<(), AllocError>
    ensures { OnOk result (out.new ≡ out.old ++ ended_line (exit_field number)) }
{
    let Some(number) = number else {
        return out.extend(b"-\n");
    };
    write_signed_number(number, out)?;
    out.push(b'\n')
}
