ghost use Rattle.std.specs.Prelude.{◌≡◌};
ghost use Rattle.desk_hosts.specs.RelayCalls.{CarriesReport, IsPathOf, RelayAnswers, TellsSite, TellsSites, verdict_answer};

use crate::file::tell_file;
use crate::site_list::versions_of;
use desk_http::{Asking, Called, Link, Paths, Route, Routes, Site2, find_route};
use fix_site::write_site;
use http_replies::Answer;
use rel_lexer::Text;
use relay_cache::FileCache;
use relay_core::{Asked, Relay, RelayAnswer, Verdict};
use server_text::{Reply, TextError, read_reported};
use std::alloc::Global;

/// A relay that answers calls, and asks its upstream for files by a link, where its cache doesn't keep them, if it has one.
#[derive(Drop)]
pub struct RelayHost<'a, L: Link> {
    pub alloc: Global,
    pub paths: &'a Paths,
    pub relay: &'a mut Relay,
    pub link: &'a mut L,
    pub cache: &'a mut Option<FileCache>,
}

impl<'a, L: Link> Site2 for RelayHost<'a, L> {
    ghost use Rattle.std.specs.Prelude.{[], ◌∷◌};
    ghost use Rattle.desk_hosts.specs.RelayCalls.{RelayCalls, RelayTells};

    ghost Told = { RelayTells };

    ghost told = { λ h. record { relay = h.relay.now; files = record { link = L.told h.link.now; cache = h.cache.now } } };

    ghost holds = { λ h. h.relay.ghost_name ∷ h.link.ghost_name ∷ h.cache.ghost_name ∷ [] };

    ghost calls = { RelayCalls };

    fn call(&mut self, asking: Asking, path: &[u8], body: &[u8]) -> Called {
        match find_route(
            self.alloc,
            self.paths,
            Routes::Relay,
            asking.word().as_bytes(),
            path,
        ) {
            Ok(route) => {
                let answer = answer(
                    self.alloc, self.relay, self.link, self.cache, route, path, body,
                );
                answer.called(self.alloc)
            }
            Err(_) => Called::Memory,
        }
    }
}

/// What is answered to a route, which is this path, and a body, or to no route.
fn answer<L: Link>(
    alloc: Global,
    relay: &mut Relay,
    link: &mut L,
    cache: &mut Option<FileCache>,
    route: Option<Route>,
    path: &[u8],
    body: &[u8],
) -> Answer
    requires { IsPathOf route path.now }
    ensures { RelayAnswers (record { relay = relay.old; files = record { link = L.told link.old; cache = cache.old } }) route body.now
        result (record { relay = relay.new; files = record { link = L.told link.new; cache = cache.new } }) }
{
    match route {
        Some(Route::AskSites) => tell_sites(alloc, relay),
        Some(Route::AskSite(name, version)) => tell_site(alloc, relay, &name, version),
        Some(Route::AskFile(digest)) => tell_file(alloc, cache, link, path, &digest),
        Some(Route::Report) => carry_report(alloc, relay, body),
        _ => Answer::Reply(Reply::NoSuch),
    }
}

/// The names and the versions of the kept sites.
fn tell_sites(alloc: Global, relay: &Relay) -> Answer
    ensures { TellsSites relay.now.sites result }
{
    match versions_of(alloc, relay.sites()) {
        Ok(sites) => Answer::Reply(Reply::Sites(sites)),
        Err(_) => Answer::Reply(Reply::Memory),
    }
}

/// The text of the kept site of this name, where its version is above this one.
fn tell_site(alloc: Global, relay: &Relay, name: &Text, version: u64) -> Answer
    ensures { TellsSite relay.now.sites name.now version result }
{
    match relay.ask(name, version) {
        Asked::New(site) => match write_site(alloc, site) {
            Ok(text) => Answer::Reply(Reply::Site(text)),
            Err(_) => Answer::Reply(Reply::Memory),
        },
        Asked::Same => Answer::Reply(Reply::Same),
    }
}

/// Takes the report of this text.
fn carry_report(alloc: Global, relay: &mut Relay, text: &[u8]) -> Answer
    ensures { CarriesReport relay.old text.now result relay.new }
{
    let report = match read_reported(alloc, text) {
        Ok(report) => report,
        Err(TextError::BadText(line)) => return Answer::Reply(Reply::BadText(line)),
        Err(TextError::Memory) => return Answer::Reply(Reply::Memory),
    };
    match relay.up(&report) {
        RelayAnswer::Told(verdict) => verdict_answer(verdict),
        RelayAnswer::Memory => Answer::Reply(Reply::Memory),
    }
}

/// The answer of a verdict.
fn verdict_answer(verdict: Verdict) -> Answer
    ensures { result ≡ verdict_answer verdict }
{
    match verdict {
        Verdict::Stored => Answer::Stored,
        Verdict::Carried => Answer::Carried,
        Verdict::Conflict(digest) => Answer::Reply(Reply::Conflict(digest)),
        Verdict::Full(limit) => Answer::Reply(Reply::Full(limit)),
    }
}
