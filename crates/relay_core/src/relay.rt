ghost use Rattle.std.specs.Prelude.{◌≡◌, ◌≤◌, length, All, IfOk, OnOk, OnErr};
ghost use Rattle.report_text.specs.Reports.{IsReport};
ghost use Rattle.fix_site.specs.Sites.{IsSite};
ghost use Rattle.relay_core.specs.ReportKeys.{HasDistinctKeys};
ghost use Rattle.relay_core.specs.Relays.{desk_queue, empty_relay};
ghost use Rattle.relay_core.specs.ReportsUp.{AnswersUp, up_verdict, after_up, is_queued, after_sent};
ghost use Rattle.relay_core.specs.ReportsUp as verdict;
ghost use Rattle.relay_core.specs.KeptSites.{KeepsSite, AnswersAsk, AreKept, with_site};

use crate::key::Key;
use crate::report_queue::{KeyState, ReportQueue};
use crate::site_list::SiteList;
use fix_site::Site;
use rel_lexer::Text;
use report_text::{Gathered, Report, Verdict, digest};
use std::alloc::{AllocError, Global};
use std::marker::Model;

/// The most reports that a relay of the desk queues.
const DESK_QUEUE: u64 = 10_000;

/// What a relay answers to a report.
#[derive(Clone, Copy)]
pub enum RelayAnswer {
    Told(Verdict),
    /// Want of memory. Nothing is changed.
    Memory,
}

/// What a relay answers to one who keeps a site of some version, or none.
#[derive(Clone, Copy)]
pub enum Asked<'a> {
    /// The site, of a greater version.
    New(&'a Site),
    /// There is no greater version.
    Same,
}

/// A relay. Contracts see what it keeps.
#[derive(Drop)]
pub struct Relay {
    alloc: Global,
    /// The most reports that are queued.
    limit: u64,
    reports: ReportQueue,
    sites: SiteList,
}

impl Model for Relay {
    ghost use Rattle.std.specs.Prelude.{◌≤◌, length};
    ghost use Rattle.relay_core.specs.Relays.{RelayState};

    ghost Value = { RelayState };

    ghost view = { λ r. record { limit = r.limit; queue = r.reports.queue; held = r.reports.held; sites = r.sites } };

    ghost invariant = { λ r. length r.reports.queue ≤ r.limit };
}

impl Relay {
    /// A relay that keeps nothing, and queues at most `limit` reports. It takes no memory.
    pub fn new(alloc: Global, limit: u64) -> Relay
        ensures { result ≡ empty_relay limit }
    {
        Relay {
            alloc,
            limit,
            reports: ReportQueue::new(alloc),
            sites: SiteList::new(alloc),
        }
    }

    /// A relay of the desk, which keeps nothing and queues at most 10,000 reports. It takes no memory.
    pub fn of_the_desk(alloc: Global) -> Relay
        ensures { result ≡ empty_relay desk_queue }
    {
        Relay::new(alloc, DESK_QUEUE)
    }

    /// Takes a report that comes up. `Stored` where the server is known to hold it, `Carried` where it is queued, now or already; `Conflict`
    /// with the digest of another report of its key, `Full` with the limit where the queue is full. The room for what `sent` remembers of it
    /// is taken here.
    pub fn up(&mut self, report: &Report) -> RelayAnswer
        requires { IsReport report.now }
        ensures { AnswersUp self.old report.now result self.new }
    {
        match self.carry(report) {
            Ok(verdict) => RelayAnswer::Told(verdict),
            Err(_) => RelayAnswer::Memory,
        }
    }

    /// The verdict on the report, which is queued where it has a place. An error changes nothing.
    fn carry(&mut self, report: &Report) -> Result<Verdict, AllocError>
        requires { IsReport report.now }
        ensures verdict { IfOk result (λ verdict. verdict ≡ up_verdict self.old report.now) }
        ensures after { IfOk result (λ _. self.new ≡ after_up self.old report.now) }
        ensures err { OnErr result (self.new ≡ self.old) }
    {
        let digest = digest(self.alloc, report)?;
        let key = Key::new(report.computer.as_str(), report.seq);
        match self.reports.state(&key) {
            Some(KeyState::Held(held)) => return Ok(compared(Verdict::Stored, held, digest)),
            Some(KeyState::Queued(queued)) => return Ok(compared(Verdict::Carried, queued, digest)),
            None => {}
        }
        if self.reports.reports().len() as u64 >= self.limit {
            return Ok(Verdict::Full(self.limit));
        }
        self.reports.push(key, digest, report.copy()?)?;
        Ok(Verdict::Carried)
    }

    /// The queued reports, the oldest first. It takes no memory.
    pub fn queue(&self) -> &[Report]
        ensures queue { result.now ≡ self.now.queue }
        ensures good { All IsReport result.now }
        ensures distinct { HasDistinctKeys result.now }
        ensures short { length result.now ≤ self.now.limit }
    {
        self.reports.reports()
    }

    /// Tells the relay that the server holds a report of this computer and number, with this digest. A queued report of them leaves the queue,
    /// and they are known, as the latest of at most 10,000. Where none is queued the answer is false and nothing changes. It takes no memory.
    pub fn sent(&mut self, computer: &Text, seq: u64, held: &[u8; 32]) -> bool
        ensures queued { result ≡ is_queued self.old (record { computer = computer.now; seq = seq }) }
        ensures after { self.new ≡ after_sent self.old (record { computer = computer.now; seq = seq }) held.now }
    {
        let Some(key) = self.reports.queued_key(computer.as_str(), seq) else {
            return false;
        };
        self.reports.hold(key, *held);
        true
    }

    /// Keeps the site, if its version is greater than that of the kept site of its name.
    pub fn site(&mut self, site: &Site) -> Gathered
        requires { IsSite site.now }
        ensures { KeepsSite self.old site.now result self.new }
    {
        if let Some(kept) = self
            .sites
            .version_not_below(site.name.as_str(), site.version)
        {
            return Gathered::Older(kept);
        }
        match self.put(site) {
            Ok(()) => Gathered::New,
            Err(_) => Gathered::Memory,
        }
    }

    /// Keeps a copy of the site, in the place of one of its name. An error changes nothing.
    fn put(&mut self, site: &Site) -> Result<(), AllocError>
        requires { IsSite site.now }
        ensures ok { OnOk result (self.new ≡ record self.old { sites = with_site site.now self.old.sites }) }
        ensures err { OnErr result (self.new ≡ self.old) }
    {
        self.sites.put(site.copy()?)
    }

    /// The site of this name, where one of a greater version than this one is kept. It takes no memory.
    pub fn ask(&self, name: &Text, version: u64) -> Asked<'_>
        ensures { AnswersAsk self.now.sites name.now version result }
    {
        match self.sites.get(name.as_str()) {
            Some(site) if version < site.version => Asked::New(site),
            _ => Asked::Same,
        }
    }

    /// The sites, in strictly ascending byte order of their names. It takes no memory.
    pub fn sites(&self) -> &[Site]
        ensures sites { result.now ≡ self.now.sites }
        ensures kept { AreKept result.now }
    {
        self.sites.as_slice()
    }
}

/// The verdict on a report with this digest, whose key stands with that one already.
fn compared(same: Verdict, there: [u8; 32], digest: [u8; 32]) -> Verdict
    ensures { result ≡ verdict.compared same there digest }
{
    if there == digest {
        same
    } else {
        Verdict::Conflict(there)
    }
}
