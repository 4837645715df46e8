// What holds of every report. The body of a law calls the laws that its proof stands on.
ghost use Rattle.std.specs.Prelude.{◌≡◌, ◌≤◌, ◌⊎◌, Result, length};
ghost use Rattle.line_forms.specs.FieldLists.{line_of};
ghost use Rattle.report_text.specs.declared.form.Form.{Form};
ghost use Rattle.report_text.specs.declared.report_row.ReportRow.{ReportRow};
ghost use Rattle.report_text.specs.ReportRows.{IsReportRow};
ghost use Rattle.report_text.specs.RowLines.{row_fields};
ghost use Rattle.report_text.specs.declared.error.ReportError.{ReportError};
ghost use Rattle.report_text.specs.declared.error.ReportError.TheVariants.{Memory};
ghost use Rattle.report_text.specs.declared.report.Report.{Report};
ghost use Rattle.report_text.specs.Reports.{IsReport, ReadsReport, most_report_bytes, report_text, row_bytes};

use line_forms::lines_are_read_again;

/// A text is that of one report at most.
pub fn one_report()
    ensures { (report other : Report) → IsReport report → IsReport other
        → report_text report ≡ report_text other → report ≡ other }
{
    lines_are_read_again();
}

/// The text of a report isn't too long. What was written is read again, or want of memory stands in its place.
pub fn a_report_is_read_again()
    ensures short { (report : Report) → IsReport report → length (report_text report) ≤ 65536 }
    ensures again { (report : Report) (answer : Result Report ReportError) → IsReport report
        → ReadsReport (report_text report) answer → (answer ≡ Ok report) ⊎ (answer ≡ Err Memory) }
{
    lines_are_read_again();
}

/// The most bytes of a row's fields, and of a report by the number of its rows: room for them is reckoned by these.
pub fn reports_are_short()
    ensures row { (form : Form) (row : ReportRow) → IsReportRow form row → length (line_of (row_fields form row)) ≤ row_bytes }
    ensures report { (report : Report) → IsReport report
        → length (report_text report) ≤ most_report_bytes (length report.rows) }
{}
