// Upstream rounds of relays: what is printed, what the link was asked, and what the relay has then. One function makes a relay and drops
// it, and each table is lent to one function that tells the first row that isn't so.
use crate::relay_rows::{LISTS, ONE, OTHER, REPORTS, Row, SITES};
use crate::upstream::{link, report, show_asked, site};
use desk_base::{Bytes, decimal};
use desk_door::MemoryLink;
use desk_rounds::relay_round;
use relay_core::{Gathered, Relay, RelayAnswer, Verdict};
use std::alloc::{AllocError, Global};
use std::mem::drop;
use std::test::Fail;

/// Has the relay keep the site of a text.
fn keep(alloc: Global, relay: &mut Relay, text: &str) -> Option<()> {
    let site = site(alloc, text)?;
    let gathered = relay.site(&site);
    drop(site);
    match gathered {
        Gathered::New => Some(()),
        _ => None,
    }
}

/// What the relay says to the report of a text.
fn verdict(alloc: Global, relay: &mut Relay, text: &str) -> Option<Verdict> {
    let report = report(alloc, text)?;
    let answer = relay.up(&report);
    drop(report);
    match answer {
        RelayAnswer::Told(verdict) => Some(verdict),
        RelayAnswer::Memory => None,
    }
}

/// Has the relay queue these reports.
fn queue(alloc: Global, relay: &mut Relay, reports: &[&str]) -> Option<()> {
    for text in reports {
        match verdict(alloc, relay, text)? {
            Verdict::Carried => {}
            _ => return None,
        }
    }
    Some(())
}

/// Appends what a relay has.
fn show_relay(relay: &Relay, out: &mut Bytes) -> Result<(), AllocError> {
    for site in relay.sites() {
        out.extend(b"keeps ")?;
        out.extend(site.name.as_str().as_bytes())?;
        out.push(b' ')?;
        decimal(site.version, out)?;
        out.push(b'\n')?;
    }
    for report in relay.queue() {
        out.extend(b"queued ")?;
        decimal(report.seq, out)?;
        out.push(b'\n')?;
    }
    Ok(())
}

/// Appends what a round prints, and what the link was asked.
fn round(alloc: Global, relay: &mut Relay, link: &mut MemoryLink, out: &mut Bytes) -> Option<()> {
    relay_round(alloc, relay, link, out).ok()?;
    show_asked(link, out).ok()
}

/// Appends them of a round over a link of which these come.
fn round_over(
    alloc: Global,
    relay: &mut Relay,
    before: &[&str],
    text: &str,
    behind: &[&str],
    out: &mut Bytes,
) -> Option<()> {
    let mut link = link(alloc, before, text, behind).ok()?;
    let made = round(alloc, relay, &mut link, out);
    drop(link);
    made
}

/// Appends what comes of a row with this exchange, for a relay that has nothing yet.
fn show_row(
    alloc: Global,
    relay: &mut Relay,
    row: &Row,
    text: &str,
    out: &mut Bytes,
) -> Option<()> {
    if !row.site.is_empty() {
        keep(alloc, relay, row.site)?;
    }
    queue(alloc, relay, row.reports)?;
    round_over(alloc, relay, row.before, text, row.behind, out)?;
    show_relay(relay, out).ok()
}

/// Whether the wanted comes of a row with this exchange.
fn is_so(alloc: Global, row: &Row, text: &str) -> bool {
    let mut relay = Relay::new(alloc, 9);
    let mut out = Bytes::new(alloc);
    let shown = show_row(alloc, &mut relay, row, text, &mut out);
    drop(relay);
    shown.is_some() && out.as_slice() == row.wanted.as_bytes()
}

/// The number of the first exchange of a row with which another thing comes.
fn first_other_exchange(alloc: Global, row: &Row) -> Option<usize> {
    for (number, text) in row.any_of.iter().enumerate() {
        if !is_so(alloc, row, text) {
            return Some(number);
        }
    }
    None
}

/// The first row of which another thing comes, and that number.
fn first_other(alloc: Global, rows: &[Row]) -> Option<(&'static str, usize)> {
    for row in rows {
        if let Some(number) = first_other_exchange(alloc, row) {
            return Some((row.name, number));
        }
    }
    None
}

#[test]
fn the_list_of_sites_is_asked_for_first(rt: HostRuntime) -> Result<(), Fail> {
    assert_eq!(rt; first_other(rt.alloc(), &LISTS), None);
    Ok(())
}

#[test]
fn newer_sites_are_gathered(rt: HostRuntime) -> Result<(), Fail> {
    assert_eq!(rt; first_other(rt.alloc(), &SITES), None);
    Ok(())
}

#[test]
fn queued_reports_are_posted(rt: HostRuntime) -> Result<(), Fail> {
    assert_eq!(rt; first_other(rt.alloc(), &REPORTS), None);
    Ok(())
}

/// The verdict on a report, after `ONE` was queued and a round made in which no site is listed and this comes of its post.
fn verdict_after(alloc: Global, relay: &mut Relay, text: &str, report: &str) -> Option<Verdict> {
    let mut out = Bytes::new(alloc);
    queue(alloc, relay, &[ONE])?;
    round_over(alloc, relay, &["200 "], text, &[], &mut out)?;
    verdict(alloc, relay, report)
}

/// That verdict of a relay that had nothing, in a word.
fn word_after(alloc: Global, text: &str, report: &str) -> &'static str {
    let mut relay = Relay::new(alloc, 9);
    let verdict = verdict_after(alloc, &mut relay, text, report);
    drop(relay);
    match verdict {
        Some(Verdict::Stored) => "stored",
        Some(Verdict::Conflict(_)) => "conflict",
        _ => "",
    }
}

/// The reply that names the SHA-256 of `OTHER`, which is by another program.
const CONFLICT: &str =
    "409 conflict 88abc08fbadc0f9e45ddaf3298060ac34450d73201a8e9421565f619caba9520\n";

/// What comes of the post of `ONE`, a report of the same key, and the verdict on it then: after `ok` and `again` the relay knows its own
/// digest, and after a conflict the one that was named.
const VERDICTS: [(&str, &str, &str); 6] = [
    ("200 ok\n", ONE, "stored"),
    ("200 ok\n", OTHER, "conflict"),
    ("200 again\n", ONE, "stored"),
    ("200 again\n", OTHER, "conflict"),
    (CONFLICT, ONE, "conflict"),
    (CONFLICT, OTHER, "stored"),
];

/// The number of the first of these where another verdict comes.
fn first_other_verdict(alloc: Global, rows: &[(&str, &str, &str)]) -> Option<usize> {
    for (number, (text, report, wanted)) in rows.iter().enumerate() {
        if word_after(alloc, text, report) != *wanted {
            return Some(number);
        }
    }
    None
}

#[test]
fn after_a_post_the_relay_knows_the_digest_that_is_held(rt: HostRuntime) -> Result<(), Fail> {
    assert_eq!(rt; first_other_verdict(rt.alloc(), &VERDICTS), None);
    Ok(())
}
