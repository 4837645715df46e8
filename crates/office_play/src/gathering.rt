// The word `gather`.
ghost use Rattle.std.specs.Prelude.{◌≡◌, ◌<◌, List, IfOk, OnOk, Ok};
ghost use Rattle.fix_site.specs.declared.site.Site.{Site};
ghost use Rattle.fix_site.specs.Answers.{ReadsSite};
ghost use Rattle.fix_site.specs.Sites.{IsSite};
ghost use Rattle.relay_core.specs.KeptSites.{AreKept, IsKept, KeepsSite};
ghost use Rattle.agent_attempt.specs.ActionContents.{site_at};
ghost use Rattle.agent_state.specs.Changes.{kept_version};
ghost use Rattle.server_text.specs.Entries.{Entry, SiteText};
ghost use Rattle.server_core.specs.DeskLimits.{desk_limits};
ghost use Rattle.server_core.specs.Replies.{reply as replied};
ghost use Rattle.office_rules.specs.RelayWords.{Gathers};
ghost use Rattle.office_play.specs.Gathering.{TakesEachOver, TakesOver};
ghost use Rattle.office_play.specs.Kept.{AreRowsOf, HasAccepted};
ghost use Rattle.office_play.specs.Links.{IsGoodOffice, IsNamed, KeepsNames};
ghost use Rattle.office_play.specs.Played.{Plays};
ghost use Rattle.office_play.specs.States.{kept_of};

use crate::asking::answer;
use crate::line::{Word, say_about};
use crate::office::Office;
use crate::relay::PlayedRelay;
use desk_base::Bytes;
use desk_keep::SureKeeper;
use fix_site::{Site, SiteError, one_reading, read_site};
use rel_lexer::Text;
use relay_core::{Asked, Gathered, Relay};
use server_core::{Reply, Request, SiteVersion, an_answered_site_is_read};
use std::alloc::{AllocError, Global};

impl Office {
    /// A relay takes each site of the server that is newer than its own.
    pub(crate) fn gather(&mut self, name: &Text, out: &mut Bytes) -> Result<(), AllocError>
        requires good { IsGoodOffice (kept_of self.old) }
        requires accepted { HasAccepted (kept_of self.old).rows }
        requires name { IsNamed name.now (kept_of self.old).relays }
        ensures plays { OnOk result (Plays (Gathers name.now) (kept_of self.old) out.old (kept_of self.new) out.new) }
        ensures names { OnOk result (KeepsNames (kept_of self.old) (kept_of self.new)) }
    {
        let place = self.relay_place(name);
        let Reply::Sites(sites) = answer(self.alloc, &mut self.keeper, &Request::AskSites)? else {
            unreachable!();
        };
        let before = out.as_slice().len();
        let relay = &mut self.relays[place];
        take_each(self.alloc, &mut self.keeper, relay, sites.as_slice(), out)?;
        if out.as_slice().len() > before {
            return Ok(());
        }
        say_about(
            &[Word::Text("gather"), Word::Text(name.as_str())],
            &[Word::Text("nothing")],
            out,
        )
    }
}

/// The relay takes each of these sites of the server that is newer than its own.
fn take_each(
    alloc: Global,
    keeper: &mut SureKeeper,
    relay: &mut PlayedRelay,
    sites: &[SiteVersion],
    out: &mut Bytes,
) -> Result<(), AllocError>
    requires accepted { HasAccepted keeper.old }
    requires kept { AreKept relay.old.1.sites }
    ensures takes { OnOk result (TakesEachOver relay.old.0 keeper.old sites.now relay.old.1 out.old relay.new.1 out.new) }
    ensures kept { OnOk result (AreKept relay.new.1.sites) }
    ensures rest { relay.new ≡ (relay.old.0, record relay.old.1 { sites = relay.new.1.sites }) }
    ensures rows { keeper.new ≡ keeper.old }
{
    for site in sites {
        take_newer(alloc, keeper, relay, site, out)?;
    }
    Ok(())
}

/// The relay takes a site of the server, if it is newer than its own.
fn take_newer(
    alloc: Global,
    keeper: &mut SureKeeper,
    relay: &mut PlayedRelay,
    site: &SiteVersion,
    out: &mut Bytes,
) -> Result<(), AllocError>
    requires accepted { HasAccepted keeper.old }
    requires kept { AreKept relay.old.1.sites }
    ensures takes { OnOk result (TakesOver relay.old.0 keeper.old site.now.name relay.old.1 out.old relay.new.1 out.new) }
    ensures kept { OnOk result (AreKept relay.new.1.sites) }
    ensures rest { relay.new ≡ (relay.old.0, record relay.old.1 { sites = relay.new.1.sites }) }
    ensures rows { keeper.new ≡ keeper.old }
{
    // Proof: what is answered is the text of one site, of this name and of a greater version than was told.
    an_answered_site_is_read();
    one_reading();
    let kept = kept_version(&relay.relay, &site.name);
    let Reply::Site(text) = site_reply(alloc, keeper, &site.name, kept)? else {
        return Ok(());
    };
    let site = answered_site(alloc, &text)?;
    keep(&mut relay.relay, &site)?;
    say_about(
        &[Word::Text("gather"), Word::Text(relay.name.as_str())],
        &[Word::Text(site.name.as_str()), Word::Number(site.version)],
        out,
    )
}

/// What the server replies to a relay that keeps this version of the site of this name.
fn site_reply(
    alloc: Global,
    keeper: &mut SureKeeper,
    name: &Text,
    kept: u64,
) -> Result<Reply, AllocError>
    requires { HasAccepted keeper.old }
    ensures reply { IfOk result (λ reply. (accepted : List Entry) → AreRowsOf accepted keeper.old
        → reply ≡ replied accepted desk_limits (SiteText name.now kept)) }
    ensures rows { keeper.new ≡ keeper.old }
{
    answer(alloc, keeper, &Request::AskSite(name.copy()?, kept))
}

/// The relay keeps a site that is newer than its own.
fn keep(relay: &mut Relay, site: &Site) -> Result<(), AllocError>
    requires site { IsSite site.now }
    requires newer { (kept : Site) → IsKept relay.old.sites site.now.name kept → kept.version < site.now.version }
    ensures ok { OnOk result (KeepsSite relay.old site.now Gathered.New relay.new) }
    ensures kept { OnOk result (AreKept relay.new.sites) }
    ensures rest { relay.new ≡ record relay.old { sites = relay.new.sites } }
{
    match relay.site(site) {
        Gathered::New => {
            // seen, so that the sites are known to be kept ones
            let _kept = relay.sites();
            Ok(())
        }
        Gathered::Older(_) => unreachable!(),
        Gathered::Memory => Err(AllocError),
    }
}

/// The version of the site of this name that a relay keeps, 0 where it keeps none.
fn kept_version(relay: &Relay, name: &Text) -> u64
    requires { AreKept relay.now.sites }
    ensures { result ≡ kept_version (site_at name.now relay.now.sites) }
{
    match relay.ask(name, 0) {
        Asked::New(site) => site.version,
        Asked::Same => 0,
    }
}

/// The site of a text that the server answered.
fn answered_site(alloc: Global, text: &Bytes) -> Result<Site, AllocError>
    requires { (site : Site) × ReadsSite text.now (Ok site) }
    ensures { IfOk result (λ site. IsSite site × ReadsSite text.now (Ok site)) }
{
    one_reading();
    match read_site(alloc, text.as_slice()) {
        Ok(site) => Ok(site),
        Err(error) => match error {
            SiteError::Memory => Err(AllocError),
            // a text that is one of a site
            _ => unreachable!(),
        },
    }
}
