ghost use Rattle.std.specs.Prelude.{◌↔◌, IsTrue, IfSome};
ghost use Rattle.desk_base.specs.Moments.{IsMoment};
ghost use Rattle.line_forms.specs.Names.{IsName};
ghost use Rattle.line_forms.specs.Numbers.{IsId};
ghost use Rattle.desk_keep.specs.Forms.{Fits, IsResult, IsRowOfReport};

use crate::{Change, ResultRow};
use act_rules::Outcome;
use desk_base::LAST_MOMENT;
use line_forms::{LAST_ID, read_name};
use rel_lexer::Text;
use report_text::{ReportRow, is_note_at};

impl Change {
    /// Whether its names, numbers and moments have their forms.
    pub fn fits(&self) -> bool
        ensures { IsTrue result ↔ Fits self.now }
    {
        match self {
            Change::Site { name, version, .. } => is_name(name) && is_id(*version),
            Change::Action { id, .. } => is_id(*id),
            Change::File { .. } => true,
            Change::Computer(name) => is_name(name),
            Change::Report { computer, seq, .. } => is_name(computer) && is_id(*seq),
            Change::Result(result) => is_result(result),
        }
    }
}

fn is_result(row: &ResultRow) -> bool
    ensures { IsTrue result ↔ IsResult row.now }
{
    is_name(&row.computer) && is_row_of_report(&row.row) && is_id(row.seq)
}

fn is_name(text: &Text) -> bool
    ensures { IsTrue result ↔ IsName text.now }
{
    read_name(text.as_str().as_bytes()).is_some()
}

fn is_id(number: u64) -> bool
    ensures { IsTrue result ↔ IsId number }
{
    number >= 1 && number <= LAST_ID
}

fn is_moment(moment: i64) -> bool
    ensures { IsTrue result ↔ IsMoment moment }
{
    moment >= 0 && moment <= LAST_MOMENT
}

/// Whether a report of some form can have the row.
fn is_row_of_report(row: &ReportRow) -> bool
    ensures { IsTrue result ↔ IsRowOfReport row.now }
{
    is_id(row.action)
        && row.number >= 1
        && is_moment(row.begun)
        && ends_at_moment(row.end)
        && (row.note.is_empty() || is_note_at(row.end, row.note))
}

fn ends_at_moment(end: Option<(i64, Outcome)>) -> bool
    ensures { IsTrue result ↔ IfSome end (λ end. IsMoment end.0) }
{
    match end {
        Some((moment, _)) => is_moment(moment),
        None => true,
    }
}
