ghost use Rattle.std.specs.Prelude.{◌≡◌, ◌++◌, ◌∷◌, [], ◌<◌, ◌-◌, length, None, Some, MatchOption, All, OnOk, OnErr, take, position};
ghost use Rattle.report_text.specs.Reports.{IsReport};
ghost use Rattle.relay_core.specs.ReportKeys.{HasDistinctKeys, key_of, same_key, report_digest, queued_digest};
ghost use Rattle.relay_core.specs.ReportsUp.{without, with_held};
ghost use Rattle.relay_core.specs.Indexes.{shown_key, FindsState, IsNewKey, IsQueued, HasState, Writes};

use crate::key::{Key, LONGEST_NAME};
use report_text::Report;
use std::alloc::{AllocError, Global};
use std::collections::{BTreeMap, VecDeque};
use std::marker::Model;

/// The most keys that are known to be held.
const MOST_HELD: usize = 10_000;

/// What is known of a key, with the digest of its report.
#[derive(Clone, Copy)]
pub(crate) enum KeyState {
    /// Its report is queued.
    Queued([u8; 32]),
    /// The server holds its report.
    Held([u8; 32]),
}

/// A key of which the server holds a report, and that report's digest.
#[derive(Clone, Copy)]
struct HeldKey {
    key: Key,
    digest: [u8; 32],
}

/// The queued reports, the oldest first, and the keys of which the server holds a report, the latest first.
#[derive(Drop)]
pub(crate) struct ReportQueue {
    reports: Vec<Report>,
    /// With room for the keys of the queued reports, up to `MOST_HELD`.
    held: VecDeque<HeldKey>,
    /// The state of each key of both.
    states: BTreeMap<Key, KeyState>,
}

impl Model for ReportQueue {
    ghost use Rattle.relay_core.specs.Indexes.{QueueState};

    ghost Value = { QueueState };

    ghost use Rattle.relay_core.specs.Queues.{queue_of, IsIndexed};

    ghost view = { queue_of };

    ghost invariant = { IsIndexed };
}

impl ReportQueue {
    /// Nothing is queued and nothing known.
    pub(crate) fn new(alloc: Global) -> ReportQueue
        ensures { result ≡ record { queue = []; held = [] } }
    {
        ReportQueue {
            reports: Vec::new(alloc),
            held: VecDeque::new(alloc),
            states: BTreeMap::new(alloc),
        }
    }

    /// The queued reports.
    pub(crate) fn reports(&self) -> &[Report]
        ensures queue { result.now ≡ self.now.queue }
        ensures good { All IsReport result.now }
        ensures distinct { HasDistinctKeys result.now }
    {
        self.reports.as_slice()
    }

    /// What is known of this key.
    pub(crate) fn state(&self, key: &Key) -> Option<KeyState>
        ensures { FindsState self.now (shown_key key.now) result }
    {
        self.states.get(key).copied()
    }

    /// The key of the queued report of this computer and number, if there is one.
    pub(crate) fn queued_key(&self, computer: &str, seq: u64) -> Option<Key>
        ensures { MatchOption result (queued_digest self.now.queue (record { computer = computer.now; seq = seq }) ≡ None)
            (λ key. (shown_key key ≡ record { computer = computer.now; seq = seq }) × IsQueued self.now (shown_key key)) }
    {
        // the names of queued reports aren't longer
        let _ = &self.reports;
        if computer.len() > LONGEST_NAME {
            return None;
        }
        let key = Key::new(computer, seq);
        match self.state(&key) {
            Some(KeyState::Queued(_)) => Some(key),
            _ => None,
        }
    }

    /// Queues a report of which this is the key and the digest, and takes the room for what is remembered of it. An error changes nothing.
    pub(crate) fn push(
        &mut self,
        key: Key,
        digest: [u8; 32],
        report: Report,
    ) -> Result<(), AllocError>
        requires good { IsReport report }
        requires key { shown_key key ≡ key_of report }
        requires digest { digest ≡ report_digest report }
        requires apart { IsNewKey self.old (shown_key key) }
        ensures ok { OnOk result (self.new ≡ record self.old { queue = self.old.queue ++ report ∷ [] }) }
        ensures err { OnErr result (self.new ≡ self.old) }
    {
        let room = MOST_HELD - self.held.len();
        self.held
            .reserve(room.min(self.reports.len().saturating_add(1)))?;
        self.reports.reserve(1)?;
        self.states.insert(key, KeyState::Queued(digest))?;
        self.reports.push_reserved(report);
        Ok(())
    }

    /// The server holds a report of this key with this digest: that of the queue leaves it, and the key is the latest that is known. It
    /// takes no memory.
    pub(crate) fn hold(&mut self, key: Key, digest: [u8; 32])
        requires { IsQueued self.old (shown_key key) }
        ensures { self.new ≡ record {
          queue = without (shown_key key) self.old.queue;
          held = with_held (shown_key key) digest self.old.held;
        } }
    {
        if self.held.len() == MOST_HELD {
            self.forget_oldest();
        }
        self.hold_one_more(key, digest);
    }

    /// The key that became known first isn't known any more.
    fn forget_oldest(&mut self)
        ensures { self.new ≡ record self.old { held = take (length self.old.held - 1) self.old.held } }
    {
        if let Some(oldest) = self.held.pop_back() {
            self.states.remove(&oldest.key);
        }
    }

    /// Where fewer are known than may be.
    fn hold_one_more(&mut self, key: Key, digest: [u8; 32])
        requires room { length self.old.held < 10000 }
        requires queued { IsQueued self.old (shown_key key) }
        ensures { self.new ≡ record { queue = without (shown_key key) self.old.queue; held = (shown_key key, digest) ∷ self.old.held } }
    {
        let Some(place) = place_of(self.reports.as_slice(), &key) else {
            unreachable!();
        };
        self.reports.remove(place);
        write_state(&mut self.states, &key, KeyState::Held(digest));
        self.held.push_front_reserved(HeldKey { key, digest });
    }
}

/// Writes the state of a key that has one. It takes no memory.
fn write_state(states: &mut BTreeMap<Key, KeyState>, key: &Key, state: KeyState)
    requires { HasState states.old key.now }
    ensures { Writes states.old key.now (Some state) states.new }
{
    if let Some(place) = states.get_mut(key) {
        *place = state;
    }
}

/// The place of the report of this key.
fn place_of(reports: &[Report], key: &Key) -> Option<usize>
    ensures { result ≡ position (λ report. same_key (shown_key key.now) (key_of report)) reports.now }
{
    reports.iter().position(|report| key.is_of(report))
}
