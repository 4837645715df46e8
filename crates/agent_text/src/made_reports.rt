use crate::made::Made;
use report_text::Report;

/// Reports, and the texts of the first of them, which are made already.
#[derive(Clone, Copy)]
pub struct MadeReports<'a> {
    pub reports: &'a [Report],
    pub made: &'a Made,
}
