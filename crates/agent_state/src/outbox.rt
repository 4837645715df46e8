ghost use Rattle.std.specs.Prelude.{◌≡◌, ◌==◌, ◌≤◌, ◌<◌, ◌+◌, [], ◌∷◌, ◌++◌, length, map, take, OnOk, OnErr, All};
ghost use Rattle.std.specs.List.{position};
ghost use Rattle.std.specs.List.Sorted.{IsStrictlyIncreasing};
ghost use Rattle.report_text.specs.Reports.{IsReport};
ghost use Rattle.agent_text.specs.KeptTexts.{AreMade};
ghost use Rattle.agent_state.specs.Outboxes.{DropsReport};

use agent_text::{Made, MadeReports};
use report_text::{Report, report_size, write_report};
use std::alloc::{AllocError, Global};
use std::marker::Model;

/// The reports that aren't known to have arrived, and how many of them, from the first on, are saved. Contracts also see for how
/// many there is room.
#[derive(Drop)]
pub struct Outbox {
    reports: Vec<Report>,
    shown: usize,
    /// The texts of the first of them.
    made: Made,
}

impl Model for Outbox {
    ghost use Rattle.std.specs.Prelude.{◌≤◌, length, vec_capacity};
    ghost use Rattle.agent_state.specs.Outboxes.{OutboxState};
    ghost use Rattle.report_text.specs.Reports.{report_text};
    ghost use Rattle.agent_text.specs.MadeTexts.{IsMadeOf};
    ghost use Rattle.agent_text.specs.MostBytes.{report_bytes};

    ghost Value = { OutboxState };

    ghost view = { λ o. record { reports = o.reports.items; shown = o.shown; capacity = vec_capacity o.reports } };

    ghost invariant = { λ o. (o.shown ≤ length o.reports.items) × IsMadeOf report_text report_bytes o.reports.items o.made };
}

impl Outbox {
    /// These reports, all of which are saved. It takes no memory.
    pub fn of(reports: Vec<Report>) -> Outbox
        ensures reports { result.reports ≡ reports.items }
        ensures shown { result.shown ≡ length reports.items }
    {
        let shown = reports.len();
        let made = Made::new(*reports.allocator());
        Outbox {
            reports,
            shown,
            made,
        }
    }

    /// All reports.
    pub fn all(&self) -> &[Report]
        ensures { result.now ≡ self.now.reports }
    {
        self.reports.as_slice()
    }

    /// The saved ones.
    pub fn shown(&self) -> &[Report]
        ensures { result.now ≡ take self.now.shown self.now.reports }
    {
        &self.reports.as_slice()[..self.shown]
    }

    /// All of them are saved.
    pub fn show(&mut self)
        ensures { self.new ≡ record self.old { shown = length self.old.reports } }
    {
        self.shown = self.reports.len();
    }

    /// Makes room for one report more. The error is want of memory.
    pub fn reserve(&mut self) -> Result<(), AllocError>
        ensures reports { self.new.reports ≡ self.old.reports }
        ensures shown { self.new.shown ≡ self.old.shown }
        ensures ok { OnOk result (length self.new.reports < self.new.capacity) }
        ensures err { OnErr result (self.new ≡ self.old) }
    {
        self.reports.reserve(1)
    }

    /// Adds a report, for which there is room. It isn't saved yet.
    pub fn push(&mut self, report: Report)
        requires { length self.old.reports < self.old.capacity }
        ensures reports { self.new.reports ≡ self.old.reports ++ report ∷ [] }
        ensures shown { self.new.shown ≡ self.old.shown }
    {
        self.reports.push(report).unwrap();
    }

    /// Makes the texts of the reports that have none yet, so that the text that is saved is put together by copying. The error is want of
    /// memory.
    pub fn make_texts(&mut self, alloc: Global) -> Result<(), AllocError>
        requires { All IsReport self.old.reports }
        ensures { self.new ≡ self.old }
    {
        for place in self.made.count()..self.reports.len() {
            self.make_text(alloc, place)?;
        }
        Ok(())
    }

    /// Makes the text of the report at this place, if those of all before it are made. The error is want of memory.
    fn make_text(&mut self, alloc: Global, place: usize) -> Result<(), AllocError>
        requires reports { All IsReport self.old.reports }
        requires place { place < length self.old.reports }
        ensures { self.new ≡ self.old }
    {
        if self.made.count() != place {
            return Ok(());
        }
        let report = &self.reports[place];
        let Some(size) = report_size(report.rows.as_slice().len()) else {
            return Err(AllocError);
        };
        let text = write_report(alloc, report)?;
        self.made.add(text.as_slice(), size)
    }

    /// All reports, and the texts that are made.
    pub fn made(&self) -> MadeReports<'_>
        ensures reports { result.reports.now ≡ self.now.reports }
        ensures made { AreMade result }
    {
        MadeReports {
            reports: self.reports.as_slice(),
            made: &self.made,
        }
    }

    /// Drops the report with this number, and answers whether it was there.
    pub fn drop_report(&mut self, seq: u64) -> bool
        requires { IsStrictlyIncreasing (map (λ report. report.seq) self.old.reports) }
        ensures { DropsReport seq self.old result self.new }
    {
        let Some(place) = place_of(self.reports.as_slice(), seq) else {
            return false;
        };
        self.made.leave(place);
        self.reports.remove(place);
        if place < self.shown {
            self.shown -= 1;
        }
        true
    }
}

/// The place of the first report with this number.
fn place_of(reports: &[Report], seq: u64) -> Option<usize>
    ensures { result ≡ position (λ report. report.seq == seq) reports.now }
{
    reports.iter().position(|report| report.seq == seq)
}
