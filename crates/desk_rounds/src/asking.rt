// Requests, and what comes of them. Where an exchange fails the second upstream is asked, if there is one, and from then on.
ghost use Rattle.std.specs.Prelude.{◌≡◌};
ghost use Rattle.report_text.specs.Reports.{IsReport};
ghost use Rattle.desk_rounds.specs.Asking.{AsksFor, IsThat, ReadsBytes};
ghost use Rattle.desk_rounds.specs.Replies.{JudgesReport, ListsSites, TellsFile, TellsSite};
ghost use Rattle.desk_rounds.specs.Requests as asks;
ghost use Rattle.desk_rounds.specs.Ways.{way};

use crate::judged::{Asker, Judged};
use crate::replies::{file_in, judged_in, site_in, sites_in};
use crate::requests::{file_request, report_request, site_request, sites_request};
use crate::way::exchange;
use desk_base::Bytes;
use desk_http::{Exchanged, Link, ReadReply, read_reply};
use fix_site::Site;
use rel_lexer::Text;
use report_text::Report;
use server_text::SiteVersions;
use std::alloc::{AllocError, Global};

/// Why nothing came of a request.
#[derive(Clone, Copy)]
pub enum Miss {
    /// The exchange failed.
    NoAnswer,
    /// What came is none of the replies that may come.
    BadAnswer,
    /// Want of memory.
    Memory,
}

impl From<AllocError> for Miss {
    ghost use Rattle.std.specs.Prelude.{◌≡◌};
    ghost use Rattle.desk_rounds.specs.declared.asking.Miss.TheVariants.{Memory};

    ghost from_gives = { λ _ miss. miss ≡ Memory };

    fn from(_: AllocError) -> Miss {
        Miss::Memory
    }
}

/// A reply: its status and its body.
#[derive(Drop)]
pub struct Reply {
    pub status: u16,
    pub body: Bytes,
}

/// Asks a request.
#[tactic(auto, using(crate::proofs::Narrowing::read_came))]
fn ask<L: Link>(
    alloc: Global,
    link: &mut L,
    second: &mut Option<Text>,
    request: &[u8],
) -> Result<Reply, Miss>
    ensures { AsksFor request.now IsThat (way (L.told link.old) second.old) result (way (L.told link.new) second.new) }
{
    match exchange(link, second, request) {
        Exchanged::Reply(bytes) => read(alloc, bytes.as_slice()),
        Exchanged::Failed => Err(Miss::NoAnswer),
        Exchanged::Memory => Err(Miss::Memory),
    }
}

/// What the bytes of a reply say.
fn read(alloc: Global, bytes: &[u8]) -> Result<Reply, Miss>
    ensures { ReadsBytes IsThat bytes.now result }
{
    match read_reply(alloc, bytes) {
        ReadReply::Reply(status, body) => Ok(Reply { status, body }),
        ReadReply::Bad => Err(Miss::BadAnswer),
        ReadReply::Memory => Err(Miss::Memory),
    }
}

/// Asks which sites there are, and of which versions.
#[tactic(auto, using(crate::proofs::Narrowing::missed, crate::proofs::Narrowing::came))]
pub(crate) fn ask_sites<L: Link>(
    alloc: Global,
    link: &mut L,
    second: &mut Option<Text>,
) -> Result<SiteVersions, Miss>
    ensures { AsksFor asks.sites_request ListsSites (way (L.told link.old) second.old) result (way (L.told link.new) second.new) }
{
    let request = sites_request(alloc)?;
    let reply = ask(alloc, link, second, request.as_slice())?;
    sites_in(alloc, &reply)
}

/// Asks for the site of this name, where its version is above this one. It is None where there is none.
#[tactic(auto, using(crate::proofs::Narrowing::missed, crate::proofs::Narrowing::came))]
pub(crate) fn ask_site<L: Link>(
    alloc: Global,
    link: &mut L,
    second: &mut Option<Text>,
    name: &Text,
    version: u64,
) -> Result<Option<Site>, Miss>
    ensures { AsksFor (asks.site_request name.now version) (TellsSite name.now) (way (L.told link.old) second.old) result
        (way (L.told link.new) second.new) }
{
    let request = site_request(alloc, name, version)?;
    let reply = ask(alloc, link, second, request.as_slice())?;
    site_in(alloc, name, &reply)
}

/// Asks for the file of this digest, its SHA-256. It is None where it isn't served.
#[tactic(auto, using(crate::proofs::Narrowing::missed, crate::proofs::Narrowing::came))]
pub(crate) fn ask_file<L: Link>(
    alloc: Global,
    link: &mut L,
    second: &mut Option<Text>,
    digest: &[u8; 32],
) -> Result<Option<Bytes>, Miss>
    ensures { AsksFor (asks.file_request digest.now) TellsFile (way (L.told link.old) second.old) result
        (way (L.told link.new) second.new) }
{
    let request = file_request(alloc, digest)?;
    let reply = ask(alloc, link, second, request.as_slice())?;
    file_in(reply)
}

/// Posts a report.
#[tactic(auto, using(crate::proofs::Narrowing::missed, crate::proofs::Narrowing::came))]
pub(crate) fn post_report<L: Link>(
    alloc: Global,
    link: &mut L,
    second: &mut Option<Text>,
    asker: Asker,
    report: &Report,
) -> Result<Judged, Miss>
    requires { IsReport report.now }
    ensures { AsksFor (asks.report_request report.now) (JudgesReport asker) (way (L.told link.old) second.old) result
        (way (L.told link.new) second.new) }
{
    let request = report_request(alloc, report)?;
    let reply = ask(alloc, link, second, request.as_slice())?;
    judged_in(asker, &reply)
}
