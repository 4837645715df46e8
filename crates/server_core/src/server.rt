ghost use Rattle.std.specs.Prelude.{◌≡◌, List, true};
ghost use Rattle.desk_base.specs.Counts.{CountsFaults};
ghost use Rattle.server_text.specs.Entries.{Entry};
ghost use Rattle.server_core.specs.CallAnswers.{Answers, AreTables, TellsBad, is_fault};
ghost use Rattle.server_core.specs.ServerParts.{AnswersSoundly, IsUnread};

use crate::asking::{ask_file, ask_results, ask_site, ask_sites};
use crate::filing::keep_file;
use crate::issuing::{issue_action, stop_action};
use crate::limits::Limits;
use crate::publishing::publish_site;
use crate::reporting::keep_report;
use crate::stop::Stop;
use desk_base::Bytes;
use desk_keep::Keeper;
use server_text::{Reply, Request, TextError, read_issued, read_published, read_reported};
use sha2::{Digest, Sha256};
use std::alloc::Global;

/// A server of these limits. What it keeps stands in a keeper, which each call is given.
#[derive(Clone, Copy)]
pub struct Server {
    pub limits: Limits,
}

impl Server {
    pub fn new(limits: Limits) -> Server
        ensures { result.limits ≡ limits }
    {
        Server { limits }
    }

    /// Answers a request. Where the keeper tells its rows and they are the tables of some accepted requests, the reply is the one to
    /// these, and the rows are the tables of what is then accepted.
    pub fn answer<K: Keeper>(&self, alloc: Global, keeper: &mut K, request: &Request) -> Reply
        ensures answers { (accepted : List Entry) → AreTables (K.told keeper.old).rows accepted
            → (later : List Entry) × Answers self.now.limits accepted request.now result later
            × AreTables (K.told keeper.new).rows later }

        // What is told of the text doesn't rest on what is kept.
        ensures bad { TellsBad request.now result }
        ensures unchanged { is_fault result ≡ true → (K.told keeper.new).rows ≡ (K.told keeper.old).rows }
        ensures counts { CountsFaults (result ≡ Reply.KeeperFault) (K.told keeper.old).faults (K.told keeper.new).faults }
    {
        match answered(alloc, keeper, self.limits, request) {
            Ok(reply) => reply,
            Err(Stop::Keeper) => Reply::KeeperFault,
            Err(Stop::Memory) => Reply::Memory,
        }
    }
}

/// The reply to a request, which is no fault.
fn answered<K: Keeper>(
    alloc: Global,
    keeper: &mut K,
    limits: Limits,
    request: &Request,
) -> Result<Reply, Stop>
    ensures { AnswersSoundly limits request.now (K.told keeper.old) result (K.told keeper.new) }
{
    match request {
        Request::Publish(text) => answer_publish(alloc, keeper, limits, text),
        Request::Act(text) => answer_act(alloc, keeper, limits, text),
        Request::Stop(id) => stop_action(alloc, keeper, *id),
        Request::File(bytes) => keep_file(keeper, limits, bytes),
        Request::AskSites => ask_sites(alloc, keeper),
        Request::AskSite(name, version) => ask_site(alloc, keeper, name, *version),
        Request::AskFile(digest) => ask_file(keeper, *digest),
        Request::Report(text) => answer_report(alloc, keeper, limits, text),
        Request::Results(computer) => ask_results(alloc, keeper, computer),
    }
}

/// Publishes the site of this text.
fn answer_publish<K: Keeper>(
    alloc: Global,
    keeper: &mut K,
    limits: Limits,
    text: &Bytes,
) -> Result<Reply, Stop>
    ensures { AnswersSoundly limits (Request.Publish text.now) (K.told keeper.old) result (K.told keeper.new) }
{
    match read_published(alloc, text.as_slice()) {
        Ok(site) => publish_site(alloc, keeper, limits, site, text),
        Err(error) => unread(error),
    }
}

/// Issues the action of this text.
fn answer_act<K: Keeper>(
    alloc: Global,
    keeper: &mut K,
    limits: Limits,
    text: &Bytes,
) -> Result<Reply, Stop>
    ensures { AnswersSoundly limits (Request.Act text.now) (K.told keeper.old) result (K.told keeper.new) }
{
    match read_issued(alloc, text.as_slice()) {
        Ok(action) => issue_action(alloc, keeper, limits, &action, text),
        Err(error) => unread(error),
    }
}

/// Takes the report of this text.
fn answer_report<K: Keeper>(
    alloc: Global,
    keeper: &mut K,
    limits: Limits,
    text: &Bytes,
) -> Result<Reply, Stop>
    ensures { AnswersSoundly limits (Request.Report text.now) (K.told keeper.old) result (K.told keeper.new) }
{
    match read_reported(alloc, text.as_slice()) {
        Ok(report) => {
            let digest = Sha256::digest(text.as_slice());
            keep_report(alloc, keeper, limits, &report, digest)
        }
        Err(error) => unread(error),
    }
}

/// The reply to a text that isn't read.
fn unread(error: TextError) -> Result<Reply, Stop>
    ensures { IsUnread error result }
{
    match error {
        TextError::BadText(line) => Ok(Reply::BadText(line)),
        TextError::Memory => Err(Stop::Memory),
    }
}
