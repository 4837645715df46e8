// What is written of a reply.
ghost use Rattle.std.specs.Prelude.{◌≡◌, ◌++◌, OnOk};
ghost use Rattle.server_text.specs.Bodies.{body_of, digest_body, number_body};

use crate::body_rows::{say_rows, say_versions};
use crate::reply::Reply;
use desk_base::{Bytes, decimal};
use line_forms::write_digest;
use std::alloc::AllocError;

/// Appends the body of a reply: a line of words, a line for each site or result, or the bytes of a site or a file. The error is want of
/// memory, after which `out` is of no use.
pub fn say_reply(reply: &Reply, out: &mut Bytes) -> Result<(), AllocError>
    ensures { OnOk result (out.new ≡ out.old ++ body_of reply.now) }
{
    match reply {
        Reply::Ok => out.extend(b"ok\n"),
        Reply::Again => out.extend(b"again\n"),
        Reply::Digest(digest) => say_digest(b"ok", digest, out),
        Reply::Sites(sites) => say_versions(sites.as_slice(), out),
        Reply::Site(text) => out.extend(text.as_slice()),
        Reply::Same => out.extend(b"same\n"),
        Reply::Content(bytes) => out.extend(bytes.as_slice()),
        Reply::Rows(rows) => say_rows(rows.as_slice(), out),
        Reply::BadText(line) => say_number(b"bad text", u64::from(*line), out),
        Reply::Conflict(digest) => say_digest(b"conflict", digest, out),
        Reply::NoSuch => out.extend(b"no such\n"),
        Reply::Older(version) => say_number(b"older", *version, out),
        Reply::Full(limit) => say_number(b"full", *limit, out),
        Reply::KeeperFault => out.extend(b"keeper fault\n"),
        Reply::Memory => out.extend(b"memory\n"),
    }
}

/// Appends words, a digest in hexadecimal digits, and an LF.
#[tactic(auto, unfolding(crate::specs::Bodies::digest_body))]
fn say_digest(words: &[u8], digest: &[u8; 32], out: &mut Bytes) -> Result<(), AllocError>
    ensures { OnOk result (out.new ≡ out.old ++ digest_body words.now digest.now) }
{
    out.extend(words)?;
    out.push(b' ')?;
    write_digest(digest, out)?;
    out.push(b'\n')
}

/// Appends words, a number in decimal digits, and an LF.
#[tactic(auto, unfolding(crate::specs::Bodies::number_body))]
fn say_number(words: &[u8], number: u64, out: &mut Bytes) -> Result<(), AllocError>
    ensures { OnOk result (out.new ≡ out.old ++ number_body words.now number) }
{
    out.extend(words)?;
    out.push(b' ')?;
    decimal(number, out)?;
    out.push(b'\n')
}
