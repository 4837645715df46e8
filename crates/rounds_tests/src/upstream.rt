// What an upstream gives, exchange by exchange, and what it was asked.
ghost use Rattle.std.specs.Prelude.{IfSome};
ghost use Rattle.fix_site.specs.Sites.{IsSite};
ghost use Rattle.report_text.specs.Reports.{IsReport};

use desk_base::{Bytes, decimal};
use desk_door::MemoryLink;
use fix_site::{Site, read_site};
use line_forms::write_digest;
use report_text::{Report, read_report};
use sha2::{Digest, Sha256};
use std::alloc::{AllocError, Global};

/// Appends the text of a site and its digest.
fn seal(text: &str, out: &mut Bytes) -> Result<(), AllocError> {
    let digest = Sha256::digest(text.as_bytes());
    out.extend(text.as_bytes())?;
    out.extend(b"digest ")?;
    write_digest(&digest, out)?;
    out.push(b'\n')
}

/// The site of a text without its digest.
pub(crate) fn site(alloc: Global, text: &str) -> Option<Site>
    ensures { IfSome result IsSite }
{
    let mut sealed = Bytes::new(alloc);
    seal(text, &mut sealed).ok()?;
    match read_site(alloc, sealed.as_slice()) {
        Ok(site) => Some(site),
        Err(_) => None,
    }
}

/// The report of a text.
pub(crate) fn report(alloc: Global, text: &str) -> Option<Report>
    ensures { IfSome result IsReport }
{
    match read_report(alloc, text.as_bytes()) {
        Ok(report) => Some(report),
        Err(_) => None,
    }
}

/// Appends a reply.
fn write_reply(status: &str, body: &[u8], out: &mut Bytes) -> Result<(), AllocError> {
    out.extend(b"HTTP/1.1 ")?;
    out.extend(status.as_bytes())?;
    out.extend(b" X\r\nContent-Length: ")?;
    decimal(body.len() as u64, out)?;
    out.extend(b"\r\n\r\n")?;
    out.extend(body)
}

/// Appends a reply with the site of a text.
fn write_site(alloc: Global, text: &str, out: &mut Bytes) -> Result<(), AllocError> {
    let mut sealed = Bytes::new(alloc);
    seal(text, &mut sealed)?;
    write_reply("200", sealed.as_slice(), out)
}

/// Appends what comes of an exchange: a reply where its text begins with a status and a space, behind which its body stands; a reply with a
/// site where it is the text of a site without its digest; and else the bytes as they are.
fn write_exchange(alloc: Global, text: &str, out: &mut Bytes) -> Result<(), AllocError> {
    match text.split_once(' ') {
        Some((word, _)) if word == "site" => write_site(alloc, text, out),
        Some((word, body)) if word.len() == 3 => write_reply(word, body.as_bytes(), out),
        _ => out.extend(text.as_bytes()),
    }
}

/// What is to come of exchanges: the replies, the numbers of those that fail, and how many there are.
#[derive(Drop)]
struct Coming {
    alloc: Global,
    replies: Vec<Bytes>,
    fails: Vec<u32>,
    count: u32,
}

impl Coming {
    /// Adds an exchange, which fails where its text is empty.
    fn add(&mut self, text: &str) -> Result<(), AllocError> {
        self.count = self.count.saturating_add(1);
        if text.is_empty() {
            self.fails.push(self.count)?;
            return Ok(());
        }
        let mut bytes = Bytes::new(self.alloc);
        write_exchange(self.alloc, text, &mut bytes)?;
        self.replies.push(bytes)?;
        Ok(())
    }

    fn add_each(&mut self, texts: &[&str]) -> Result<(), AllocError> {
        for text in texts {
            self.add(text)?;
        }
        Ok(())
    }

    fn add_all(&mut self, before: &[&str], text: &str, behind: &[&str]) -> Result<(), AllocError> {
        self.add_each(before)?;
        self.add(text)?;
        self.add_each(behind)
    }
}

/// A link of which these come, one an exchange. Further exchanges fail.
pub(crate) fn link(
    alloc: Global,
    before: &[&str],
    text: &str,
    behind: &[&str],
) -> Result<MemoryLink, AllocError> {
    let mut coming = Coming {
        alloc,
        replies: Vec::new(alloc),
        fails: Vec::new(alloc),
        count: 0,
    };
    match coming.add_all(before, text, behind) {
        Ok(()) => Ok(MemoryLink::new(alloc, coming.replies, coming.fails)),
        Err(error) => Err(error),
    }
}

/// Appends the method and the path of each request, behind its upstream where one was opened, and the `seq` line of a report.
pub(crate) fn show_asked(link: &MemoryLink, out: &mut Bytes) -> Result<(), AllocError> {
    for asked in link.asked() {
        if let Some(upstream) = &asked.upstream {
            out.extend(upstream.as_str().as_bytes())?;
            out.extend(b": ")?;
        }
        if let Ok(text) = str::from_utf8(asked.request.as_slice()) {
            show_request(text, out)?;
        }
    }
    Ok(())
}

/// Appends them of one request.
fn show_request(text: &str, out: &mut Bytes) -> Result<(), AllocError> {
    for line in text.lines() {
        if line.starts_with("GET ") || line.starts_with("POST ") || line.starts_with("seq ") {
            out.extend(line.as_bytes())?;
            out.push(b'\n')?;
        }
    }
    Ok(())
}
