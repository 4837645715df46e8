ghost use Rattle.std.specs.Prelude.{◌≡◌, ◌⊎◌};
ghost use Rattle.route_rules.specs.Routes.{file_path};
ghost use Rattle.desk_hosts.specs.RelayFiles.{AnswersKept, AsksFile, ComesOf, KeepsCame, ReadsCame, TellsBytes, TellsCached, TellsFile, came_of, passed_on};
ghost use Rattle.desk_hosts.specs.HostCalls.{no_memory};
ghost use Rattle.desk_hosts.specs.declared.file.Came.TheVariants as of_came;

use desk_base::Bytes;
use desk_http::{Asking, Exchanged, Link, ReadReply, ask_bytes, read_reply};
use http_replies::Answer;
use relay_cache::{FileCache, Kept};
use server_text::Reply;
use sha2::{Digest, Sha256};
use std::alloc::Global;

/// What comes of asking an upstream for a file.
#[derive(Drop)]
pub enum Came {
    /// These bytes, whatever digest they have.
    File(Bytes),
    /// No file: this is answered.
    Nothing(Answer),
}

/// Answers one who asks for the file of this digest, whose path this is: from the cache where it keeps the file, and else by what the
/// upstream gives, which the cache then keeps.
pub(crate) fn tell_file<L: Link>(
    alloc: Global,
    cache: &mut Option<FileCache>,
    link: &mut L,
    path: &[u8],
    digest: &[u8; 32],
) -> Answer
    requires { path.now ≡ file_path digest.now }
    ensures { TellsFile digest.now (record { link = L.told link.old; cache = cache.old }) result
        (record { link = L.told link.new; cache = cache.new }) }
{
    match cache {
        Some(cache) => tell_cached(alloc, cache, link, path, digest),
        None => passed_on(digest, ask_upstream(alloc, link, path, digest)),
    }
}

/// The same, with a cache.
fn tell_cached<L: Link>(
    alloc: Global,
    cache: &mut FileCache,
    link: &mut L,
    path: &[u8],
    digest: &[u8; 32],
) -> Answer
    requires { path.now ≡ file_path digest.now }
    ensures { TellsCached digest.now (L.told link.old) cache.old result (L.told link.new) cache.new }
{
    match kept_answer(cache, digest) {
        Some(answer) => answer,
        None => keep(cache, digest, ask_upstream(alloc, link, path, digest)),
    }
}

/// The bytes that are kept of the file, which goes first, where it is kept.
#[tactic(auto, using(crate::proofs::Keeping::not_looked))]
fn kept_answer(cache: &mut FileCache, digest: &[u8; 32]) -> Option<Answer>
    ensures { AnswersKept digest.now cache.old result cache.new }
{
    match cache.get(digest) {
        Some(bytes) => Some(copied(bytes)),
        None => None,
    }
}

/// A copy of these bytes, as an answer.
fn copied(bytes: &Bytes) -> Answer
    ensures { TellsBytes bytes.now result }
{
    match bytes.copy() {
        Ok(bytes) => Answer::Reply(Reply::Content(bytes)),
        Err(_) => Answer::Reply(Reply::Memory),
    }
}

/// Keeps what came, where it is the file of this digest, and answers it.
#[tactic(auto, using(crate::proofs::Keeping::keeps_kept, crate::proofs::Keeping::keeps_refused, crate::proofs::Keeping::keeps_short, crate::proofs::Keeping::keeps_nothing))]
fn keep(cache: &mut FileCache, digest: &[u8; 32], came: Came) -> Answer
    ensures { KeepsCame cache.old digest.now came result cache.new }
{
    match came {
        Came::File(bytes) => match cache.put(digest, &bytes) {
            Kept::Kept => Answer::Reply(Reply::Content(bytes)),
            Kept::WrongDigest { .. } => Answer::BadAnswer,
            Kept::Memory => Answer::Reply(Reply::Memory),
        },
        Came::Nothing(answer) => answer,
    }
}

/// Answers what came, where it is the file of this digest.
fn passed_on(digest: &[u8; 32], came: Came) -> Answer
    ensures { result ≡ passed_on digest.now came }
{
    match came {
        Came::File(bytes) => {
            if Sha256::digest(bytes.as_slice()) == *digest {
                Answer::Reply(Reply::Content(bytes))
            } else {
                Answer::BadAnswer
            }
        }
        Came::Nothing(answer) => answer,
    }
}

/// Asks the upstream for the file of this digest, whose path this is.
fn ask_upstream<L: Link>(alloc: Global, link: &mut L, path: &[u8], digest: &[u8; 32]) -> Came
    requires { path.now ≡ file_path digest.now }
    ensures { AsksFile (L.told link.old) digest.now result (L.told link.new) }
{
    match ask_bytes(alloc, Asking::Get, path, b"") {
        Ok(request) => came_of_exchange(alloc, link.exchange(request.as_slice())),
        Err(_) => Came::Nothing(Answer::Reply(Reply::Memory)),
    }
}

/// What comes of an exchange that answered this.
fn came_of_exchange(alloc: Global, exchanged: Exchanged) -> Came
    ensures { ComesOf exchanged result }
{
    match exchanged {
        Exchanged::Reply(bytes) => read_came(alloc, bytes.as_slice()),
        Exchanged::Failed => Came::Nothing(Answer::LinkFault),
        Exchanged::Memory => Came::Nothing(Answer::Reply(Reply::Memory)),
    }
}

/// By the bytes that the upstream replied.
fn read_came(alloc: Global, bytes: &[u8]) -> Came
    ensures { (result ≡ of_came.Nothing no_memory) ⊎ ReadsCame bytes.now result }
{
    match read_reply(alloc, bytes) {
        ReadReply::Reply(status, body) => came_of(status, body),
        ReadReply::Bad => Came::Nothing(Answer::BadAnswer),
        ReadReply::Memory => Came::Nothing(Answer::Reply(Reply::Memory)),
    }
}

/// By the status and the body of its reply.
fn came_of(status: u16, body: Bytes) -> Came
    ensures { result ≡ came_of status body }
{
    match status {
        404 => Came::Nothing(Answer::Reply(Reply::NoSuch)),
        200 => Came::File(body),
        _ => Came::Nothing(Answer::BadAnswer),
    }
}
