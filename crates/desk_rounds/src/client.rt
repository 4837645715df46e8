// The clients of an upstream.
ghost use Rattle.std.specs.Prelude.{◌≡◌, ◌<◌, length, IfOk};
ghost use Rattle.std.specs.Option.{option_map};
ghost use Rattle.agent_attempt.specs.ActionContents.{site_at};
ghost use Rattle.report_text.specs.Reports.{IsReport};
ghost use Rattle.desk_rounds.specs.Clients.{HoldsAt, held_of, is_stored};

use crate::judged::{Asker, Judged};
use agent_core::{Agent, Gathered, Verdict, agents_are_sound};
use fix_site::Site;
use rel_lexer::Text;
use relay_core::Relay;
use report_text::{Report, digest};
use std::alloc::{AllocError, Global};

/// What makes rounds: a relay or an agent. It keeps sites, and has reports to post.
pub(crate) trait Client {
    ghost use Rattle.std.specs.Prelude.{◌≡◌, ◌<◌, All, length};
    ghost use Rattle.fix_site.specs.Sites.{IsSite};
    ghost use Rattle.report_text.specs.Reports.{IsReport};
    ghost use Rattle.desk_rounds.specs.Clients.{Client, SettlesAt};
    ghost use Rattle.desk_rounds.specs.Gathering.{version_at};

    /// What it keeps.
    ghost Told: { Type 0 };

    ghost told: { Self → Told };

    /// How it goes about its rounds.
    ghost rules: { Client Told };

    /// What holds of it.
    ghost sound: { Told → Type 0 };

    /// What stays as it is, whatever it keeps and settles.
    ghost Fixed: { Type 0 };

    ghost fixed: { Told → Fixed };

    /// Which sort it is.
    fn asker(&self) -> Asker
        ensures { result ≡ rules.asker };

    /// The version of the kept site of this name, 0 where none is kept.
    fn kept_version(&self, name: &Text) -> u64
        requires { sound (told self.now) }
        ensures { result ≡ version_at rules (told self.now) name.now };

    /// Keeps a site, if its version is greater than that of the kept site of its name.
    fn keep(&mut self, alloc: Global, site: &Site) -> Gathered
        requires site { IsSite site.now }
        requires sound { sound (told self.old) }
        ensures keeps { rules.keeps (told self.old) site.now result (told self.new) }
        ensures sound { sound (told self.new) }
        ensures fixed { fixed (told self.new) ≡ fixed (told self.old) };

    /// The reports that there are to post, the oldest first.
    fn reports(&self) -> &[Report]
        requires { sound (told self.now) }
        ensures reports { result.now ≡ rules.reports (told self.now) }
        ensures good { All IsReport result.now };

    /// Settles what was said of the report at this place of them. It is true where that report is none of them any more. The error is want
    /// of memory, and changes nothing.
    fn settle_at(
        &mut self,
        alloc: Global,
        place: usize,
        judged: &Judged,
    ) -> Result<bool, AllocError>
        requires sound { sound (told self.old) }
        requires there { place < length (rules.reports (told self.old)) }
        ensures settles { SettlesAt rules place judged.now (told self.old) result (told self.new) }
        ensures sound { sound (told self.new) }
        ensures fixed { fixed (told self.new) ≡ fixed (told self.old) };
}

impl Client for Relay {
    ghost use Rattle.std.specs.Prelude.{ℕ, ⊤};
    ghost use Rattle.relay_core.specs.Relays.{RelayState};
    ghost use Rattle.desk_rounds.specs.Clients.{relay_client};

    ghost Told = { RelayState };

    ghost told = { λ relay. relay };

    ghost rules = { relay_client };

    ghost sound = { λ _. ⊤ };

    ghost Fixed = { ℕ };

    ghost fixed = { λ relay. relay.limit };

    fn asker(&self) -> Asker {
        Asker::Relay
    }

    fn kept_version(&self, name: &Text) -> u64 {
        match site_of(self.sites(), name.as_str()) {
            Some(site) => site.version,
            None => 0,
        }
    }

    fn keep(&mut self, _alloc: Global, site: &Site) -> Gathered {
        self.site(site)
    }

    fn reports(&self) -> &[Report] {
        self.queue()
    }

    fn settle_at(
        &mut self,
        alloc: Global,
        place: usize,
        judged: &Judged,
    ) -> Result<bool, AllocError> {
        let Some(held) = held_of(alloc, judged, &self.queue()[place])? else {
            return Ok(false);
        };
        held_at(self, place, &held)?;
        Ok(true)
    }
}

/// The digest of the report that the server holds in place of this one, where what was said tells of one. The error is want of memory.
fn held_of(alloc: Global, judged: &Judged, report: &Report) -> Result<Option<[u8; 32]>, AllocError>
    requires { IsReport report.now }
    ensures { IfOk result (λ held. held ≡ held_of judged.now report.now) }
{
    match judged {
        Judged::Ok => Ok(Some(digest(alloc, report)?)),
        Judged::Again => Ok(Some(digest(alloc, report)?)),
        Judged::Conflict(held) => Ok(Some(*held)),
        Judged::Stored => Ok(None),
        Judged::Carried => Ok(None),
        Judged::Full(_) => Ok(None),
    }
}

/// Tells a relay that the server holds a report of the key of that at this place of the queue, with this digest. The error is want of
/// memory, and changes nothing.
fn held_at(relay: &mut Relay, place: usize, held: &[u8; 32]) -> Result<(), AllocError>
    requires { place < length relay.old.queue }
    ensures holds { HoldsAt place held.now relay.old result relay.new }
    ensures limit { relay.new.limit ≡ relay.old.limit }
{
    let report = &relay.queue()[place];
    let computer = report.computer.copy()?;
    let seq = report.seq;
    relay.sent(&computer, seq, held);
    Ok(())
}

/// The site of this name.
fn site_of<'a>(sites: &'a [Site], name: &str) -> Option<&'a Site>
    ensures { option_map (λ site. site.now) result ≡ site_at name.now sites.now }
{
    sites.iter().find(|site| site.name.as_str() == name)
}

impl Client for Agent {
    ghost use Rattle.std.specs.Prelude.{Option};
    ghost use Rattle.agent_attempt.specs.Attempts.{PlainAttempt};
    ghost use Rattle.agent_core.specs.Agents.{shown_state};
    ghost use Rattle.agent_state.specs.States.{IsSound, State};
    ghost use Rattle.desk_rounds.specs.Clients.{agent_client};

    ghost Told = { State };

    ghost told = { shown_state };

    ghost rules = { agent_client };

    ghost sound = { IsSound };

    ghost Fixed = { Option PlainAttempt };

    ghost fixed = { λ agent. agent.held };

    fn asker(&self) -> Asker {
        Asker::Agent
    }

    fn kept_version(&self, name: &Text) -> u64 {
        self.version(name)
    }

    fn keep(&mut self, alloc: Global, site: &Site) -> Gathered {
        let answer = self.gather(alloc, site);
        agents_are_sound(self);
        answer
    }

    fn reports(&self) -> &[Report] {
        self.outbox()
    }

    fn settle_at(
        &mut self,
        _alloc: Global,
        place: usize,
        judged: &Judged,
    ) -> Result<bool, AllocError> {
        if !is_stored(judged) {
            return Ok(false);
        }
        let seq = self.outbox()[place].seq;
        let dropped = self.settle(seq, &Verdict::Stored);
        agents_are_sound(self);
        Ok(dropped)
    }
}

/// Whether an agent takes it for stored.
fn is_stored(judged: &Judged) -> bool
    ensures { result ≡ is_stored judged.now }
{
    matches!(judged, Judged::Ok | Judged::Again | Judged::Stored)
}
