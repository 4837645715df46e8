ghost use Rattle.std.specs.Prelude.{◌≡◌, ℕ, ℤ, ◌+ℤ◌, ◌≤ℤ◌, List, [], ◌∷◌, ◌++◌, IsTrue, ◌↔◌, IsSomeAnd, option_copied};
ghost use Rattle.desk_base.specs.Moments.{IsMoment};
ghost use Rattle.act_rules.specs.declared.row.Row.{Row};
ghost use Rattle.act_rules.specs.declared.row.Note.{Note};
ghost use Rattle.act_rules.specs.Rows.{IsRows, last_row, with_last};
ghost use Rattle.act_rules.specs.Series.{outcome_closes};
ghost use Rattle.act_rules.specs.Owed.{IsOwed, OwesAgain};
ghost use Rattle.act_rules.specs.Tallies.{StandsFor, ended_rows};
ghost use Rattle.act_rules.specs.Steps.{AddsRows, OwesAfter};

use crate::row::{Outcome, Row};
use crate::rows::Rows;
use crate::rule::{Reapply, Rules};

/// Stands for the rows of an action under a number of retries: it counts, in series, those that have ended. So it stands for
/// the same rows with a last row that runs as well.
#[derive(Clone, Copy)]
pub struct Tally {
    retries: u32,
    series: u32,
    retried: u32,
    closed: bool,
}

impl Tally {
    /// Stands for these rows.
    pub fn of(retries: u32, rows: &Rows) -> Tally
        ensures { StandsFor result retries rows.now.rows }
    {
        let mut tally = Tally {
            retries,
            series: 0,
            retried: 0,
            closed: false,
        };
        for row in rows.as_slice() {
            tally.count(row);
        }
        tally
    }

    /// Counts the row if it has ended.
    fn count(&mut self, row: &Row)
        ensures { AddsRows self.old self.new (ended_rows (row.now ∷ [])) }
    {
        if let Some((_, outcome)) = row.end {
            self.add(outcome);
        }
    }

    /// One more row has ended so. It stands for the rows with this one, or with their last row, which ran, ended.
    pub fn end(&mut self, outcome: Outcome)
        ensures added { (retries : ℕ) (rows : List Row) (row : Row) (moment : ℤ)
            → IsRows (rows ++ row ∷ []) → row.end ≡ Some (moment, outcome)
            → StandsFor self.old retries rows → StandsFor self.new retries (rows ++ row ∷ []) }
        ensures ended { (retries : ℕ) (rows : List Row) (moment : ℤ) (note : Note)
            → IsRows rows → IsSomeAnd (last_row rows) (λ row. row.end ≡ None)
            → StandsFor self.old retries rows → StandsFor self.new retries (with_last rows
            (λ row. record row { end = Some (moment, outcome); note = note })) }
    {
        self.add(outcome);
    }

    fn add(&mut self, outcome: Outcome)
        ensures { (row : Row) (moment : ℤ) → row.end ≡ Some (moment, outcome)
            → AddsRows self.old self.new (row ∷ []) }
    {
        if self.series == 0 || self.closed {
            self.series = self.series.saturating_add(1);
            self.retried = 0;
            self.closed = outcome.closes(self.retries, 0);
            return;
        }
        self.retried = self.retried.saturating_add(1);
        self.closed = outcome.closes(self.retries, self.retried);
    }

    /// Whether a run is owed after the rows that it stands for, under rules with its number of retries. `last` is their last
    /// row. The moment is in seconds since 1970-01-01 00:00:00 UTC, from 0 to 2^37.
    pub fn owed(&self, rules: &Rules, last: Option<&Row>, moment: i64) -> bool
        requires { IsMoment moment }
        ensures { (rows : List Row) → IsRows rows → StandsFor self.now rules.now.retries rows
            → option_copied last.entry ≡ last_row rows
            → (IsTrue result ↔ IsOwed rules.now rows moment) }
    {
        match last {
            None => true,
            Some(row) => self.owes_after(rules, row, moment),
        }
    }

    fn owes_after(&self, rules: &Rules, row: &Row, moment: i64) -> bool
        requires { IsMoment moment }
        ensures { IsTrue result ↔ OwesAfter rules.now self.now row.now moment }
    {
        let Some((end, _)) = row.end else {
            return false;
        };
        if self.closed {
            rules.reapply.owes(self.series, row.cleared, end, moment)
        } else {
            has_passed(end, rules.wait, moment)
        }
    }
}

impl Outcome {
    fn closes(self, retries: u32, before: u32) -> bool
        ensures { result ≡ outcome_closes retries before self }
    {
        match self {
            Outcome::Fixed => true,
            Outcome::Failed | Outcome::Interrupted => before == retries,
        }
    }
}

impl Reapply {
    fn owes(self, count: u32, cleared: Option<i64>, end: i64, moment: i64) -> bool
        requires { IsMoment moment }
        ensures { IsTrue result ↔ OwesAgain self count cleared end moment }
    {
        match self {
            Reapply::Never => false,
            Reapply::Again { limit, wait } => {
                count <= limit && has_passed(end, wait, moment) && cleared.is_some()
            }
            Reapply::While { limit, wait } => count <= limit && has_passed(end, wait, moment),
        }
    }
}

/// Whether the wait after an end is over. A sum that is too large is after each moment.
fn has_passed(end: i64, wait: i64, moment: i64) -> bool
    requires { IsMoment moment }
    ensures { IsTrue result ↔ ((end +ℤ wait) ≤ℤ moment) }
{
    end.saturating_add(wait) <= moment
}
