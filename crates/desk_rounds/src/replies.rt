// The table of what a reply to each request may be. An error is a bad answer, or want of memory.
ghost use Rattle.std.specs.Prelude.{◌≡◌, ◌↔◌, IsTrue};
ghost use Rattle.desk_rounds.specs.Asking.{ReadsAs};
ghost use Rattle.desk_rounds.specs.Judgements.{may_hear};
ghost use Rattle.desk_rounds.specs.Listing.{HasName, ReadsNamed, miss_of};
ghost use Rattle.desk_rounds.specs.Replies.{FindsSaid, FindsValue, JudgesReport, ListsSites, TellsFile, TellsSite};

use crate::asking::{Miss, Reply};
use crate::judged::{Asker, Judged};
use crate::listed::read_versions;
use desk_base::Bytes;
use fix_site::{Site, SiteError, one_reading, read_site};
use line_forms::{read_digest, read_number};
use rel_lexer::Text;
use server_text::SiteVersions;
use std::alloc::Global;

/// To `GET /sites`: the sites that are listed.
pub(crate) fn sites_in(alloc: Global, reply: &Reply) -> Result<SiteVersions, Miss>
    ensures { ReadsAs ListsSites reply.now.status reply.now.body result }
{
    if reply.status != 200 {
        return Err(Miss::BadAnswer);
    }
    read_versions(alloc, reply.body.as_slice())
}

/// To `GET /sites/{name}/{version}`: a site of this name, or None where it is `same`.
pub(crate) fn site_in(alloc: Global, name: &Text, reply: &Reply) -> Result<Option<Site>, Miss>
    ensures { ReadsAs (TellsSite name.now) reply.now.status reply.now.body result }
{
    if reply.status != 200 {
        return Err(Miss::BadAnswer);
    }
    let body = reply.body.as_slice();
    if is_same(body, b"same\n") {
        return Ok(None);
    }
    Ok(Some(read_named(alloc, name, body)?))
}

/// Reads the text of a site of this name.
fn read_named(alloc: Global, name: &Text, text: &[u8]) -> Result<Site, Miss>
    ensures { ReadsNamed name.now text.now result }
{
    // Proof: a text is read as a site in one way.
    one_reading();
    match read_site(alloc, text) {
        Ok(site) => named(name, site),
        Err(error) => Err(miss_of(error)),
    }
}

/// The site, if it has this name.
fn named(name: &Text, site: Site) -> Result<Site, Miss>
    ensures { HasName name.now site result }
{
    if !is_same(site.name.as_str().as_bytes(), name.as_str().as_bytes()) {
        return Err(Miss::BadAnswer);
    }
    Ok(site)
}

fn is_same(text: &[u8], other: &[u8]) -> bool
    ensures { IsTrue result ↔ (text.now ≡ other.now) }
{
    text == other
}

/// What it is where a text isn't read as a site.
fn miss_of(error: SiteError) -> Miss
    ensures { result ≡ miss_of error }
{
    match error {
        SiteError::Memory => Miss::Memory,
        SiteError::BadLine(_)
        | SiteError::TwiceId(_)
        | SiteError::WrongDigest { .. }
        | SiteError::TooLong => Miss::BadAnswer,
    }
}

/// To `GET /files/{sha256}`: the bytes, or None where they aren't served.
pub(crate) fn file_in(reply: Reply) -> Result<Option<Bytes>, Miss>
    ensures { ReadsAs TellsFile reply.status reply.body result }
{
    if reply.status == 200 {
        return Ok(Some(reply.body));
    }
    if reply.status == 404 {
        return Ok(None);
    }
    Err(Miss::BadAnswer)
}

/// To `POST /reports`: what is said of the report.
pub(crate) fn judged_in(asker: Asker, reply: &Reply) -> Result<Judged, Miss>
    ensures { ReadsAs (JudgesReport asker) reply.now.status reply.now.body result }
{
    let Some(judged) = said_of(reply) else {
        return Err(Miss::BadAnswer);
    };
    if !may_hear(asker, judged) {
        return Err(Miss::BadAnswer);
    }
    Ok(judged)
}

/// Whether an agent, or a relay, may be told so.
fn may_hear(asker: Asker, judged: Judged) -> bool
    ensures { result ≡ may_hear asker judged }
{
    match asker {
        Asker::Agent => true,
        Asker::Relay => !matches!(judged, Judged::Stored | Judged::Carried),
    }
}

/// What is said of a report to anybody.
fn said_of(reply: &Reply) -> Option<Judged>
    ensures { FindsSaid reply.now.status reply.now.body result }
{
    let body = reply.body.as_slice();
    if reply.status == 200 {
        return word_of(body);
    }
    if reply.status == 409 {
        return conflict_of(body);
    }
    if reply.status == 507 {
        return limit_of(body);
    }
    None
}

/// The word of a line.
fn word_of(body: &[u8]) -> Option<Judged>
    ensures { FindsSaid 200 body.now result }
{
    if body == b"ok\n".as_slice() {
        return Some(Judged::Ok);
    }
    if body == b"again\n".as_slice() {
        return Some(Judged::Again);
    }
    if body == b"stored\n".as_slice() {
        return Some(Judged::Stored);
    }
    if body == b"carried\n".as_slice() {
        return Some(Judged::Carried);
    }
    None
}

/// The digest of a line.
fn conflict_of(body: &[u8]) -> Option<Judged>
    ensures { FindsSaid 409 body.now result }
{
    let digits = value_in(body, b"conflict ")?;
    Some(Judged::Conflict(read_digest(digits)?))
}

/// The limit of a line.
fn limit_of(body: &[u8]) -> Option<Judged>
    ensures { FindsSaid 507 body.now result }
{
    let digits = value_in(body, b"full ")?;
    Some(Judged::Full(read_number(digits, u64::MAX)?))
}

/// What stands between these words and the LF at the end.
fn value_in<'a>(body: &'a [u8], words: &[u8]) -> Option<&'a [u8]>
    ensures { FindsValue words.now body.now result }
{
    let rest = body.strip_prefix(words)?;
    rest.strip_suffix(b"\n")
}
