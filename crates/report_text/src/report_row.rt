use act_rules::{Note, Outcome};

/// A row of a report: one attempt of an action. Moments are seconds since 1970-01-01 00:00:00 UTC, from 0 to 2^37.
#[derive(Clone, Copy)]
pub struct ReportRow {
    /// The id of the action, from 1 to 2^53.
    pub action: u64,
    /// The number of the attempt, from 1.
    pub number: u32,
    /// The moment at which it began.
    pub begun: i64,
    /// When and how it ended. None while it runs.
    pub end: Option<(i64, Outcome)>,
    /// Empty in a report of form One, and for a row that runs or was interrupted. A place stands exactly with a failure.
    pub note: Note,
}
