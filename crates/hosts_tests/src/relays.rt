// What a relay answers over HTTP, one row each, by hand from the rules in docs/HTTP.md.
ghost use Rattle.std.specs.Prelude.{IfOk};
ghost use Rattle.line_forms.specs.Numbers.{IsId};
ghost use Rattle.report_text.specs.Reports.{IsReport};

use crate::called::{ABC, OTHER, REPORT, Row, answers, first_unanswered};
use desk_base::Bytes;
use desk_door::MemoryLink;
use desk_hosts::{Asking, Paths, RelayHost};
use fix_site::read_site;
use rel_lexer::Text;
use relay_core::{Gathered, Relay, RelayAnswer};
use report_text::{Form, Report, ReportRows};
use std::alloc::{AllocError, Global};
use std::mem::drop;
use std::test::Fail;

/// The text of an empty site, with its digest by another program.
const SITE: &str =
    "site desk 1\ndigest ea291f01194588c156d3479a2454669eed3d2b89bbabf107ebd5cf3aacf48c2c\n";

const ROWS: [Row; 12] = [
    (Asking::Get, "/sites", "", 200, "desk 1\n"),
    (
        Asking::Get,
        "/sites/desk/0",
        "",
        200,
        "site desk 1\ndigest ea291f01194588c156d3479a2454669eed3d2b89bbabf107ebd5cf3aacf48c2c\n",
    ),
    (Asking::Get, "/sites/desk/1", "", 200, "same\n"),
    (Asking::Get, "/sites/other/0", "", 200, "same\n"),
    (Asking::Get, "/sites/desk/01", "", 404, "no such\n"),
    (Asking::Post, "/sites", "", 404, "no such\n"),
    (Asking::Get, "/results/pc1", "", 404, "no such\n"),
    (
        Asking::Post,
        "/reports",
        "report 1\ncomputer pc1\nseq 0\nend\n",
        400,
        "bad text 3\n",
    ),
    (Asking::Post, "/reports", REPORT, 200, "carried\n"),
    (Asking::Post, "/reports", REPORT, 200, "carried\n"),
    (
        Asking::Post,
        "/reports",
        OTHER,
        409,
        "conflict ca8a7375b560d8fb822012ab1e72147b172b6f77ade2ee68d8ff63bfaf69806e\n",
    ),
    (Asking::Get, ABC, "", 502, "link fault\n"),
];

/// Whether the relay takes the site as a new one.
fn takes_site(alloc: Global, relay: &mut Relay) -> bool {
    match read_site(alloc, SITE.as_bytes()) {
        Ok(site) => matches!(relay.site(&site), Gathered::New),
        Err(_) => false,
    }
}

/// How many rows before the first call that a relay doesn't answer so.
fn first_untold(
    alloc: Global,
    relay: &mut Relay,
    link: &mut MemoryLink,
    rows: &[Row],
) -> Option<usize> {
    let paths = Paths::new(alloc);
    let mut cache = None;
    let mut host = RelayHost {
        alloc,
        paths: &paths,
        relay,
        link,
        cache: &mut cache,
    };
    first_unanswered(&mut host, rows)
}

#[test]
fn a_relay_answers_as_the_table_says(rt: HostRuntime) -> Result<(), Fail> {
    let alloc = rt.alloc();
    let mut relay = Relay::of_the_desk(alloc);
    let is_taken = takes_site(alloc, &mut relay);
    let mut link = MemoryLink::new(alloc, Vec::new(alloc), Vec::new(alloc));
    let untold = first_untold(alloc, &mut relay, &mut link, &ROWS);
    drop(link);
    drop(relay);
    assert!(rt; is_taken);
    assert_eq!(rt; untold, None);
    Ok(())
}

/// What an upstream replies to a request of the file `abc`, and what the relay answers.
const REPLIES: [(&str, u16, &str); 8] = [
    (
        "HTTP/1.1 200 OK\r\nContent-Length: 3\r\n\r\nabc",
        200,
        "abc",
    ),
    (
        "HTTP/1.1 404 Not Found\r\nContent-Length: 13\r\n\r\nanything else",
        404,
        "no such\n",
    ),
    (
        "HTTP/1.1 200 OK\r\nContent-Length: 3\r\n\r\nabd",
        502,
        "bad answer\n",
    ),
    (
        "HTTP/1.1 200 OK\r\nContent-Length: 3\r\n\r\nabcd",
        502,
        "bad answer\n",
    ),
    ("HTTP/1.1 200 OK\r\n\r\nabc", 502, "bad answer\n"),
    (
        "HTTP/1.1 500 Internal Server Error\r\nContent-Length: 3\r\n\r\nabc",
        502,
        "bad answer\n",
    ),
    (
        "HTTP/1.1 201 Created\r\nContent-Length: 3\r\n\r\nabc",
        502,
        "bad answer\n",
    ),
    ("x", 502, "bad answer\n"),
];

/// What is asked of the upstream for each.
const REQUEST: &str =
    "GET /files/ba7816bf8f01cfea414140de5dae2223b00361a396177a9cb410ff61f20015ad HTTP/1.1\r\nHost: desk\r\nContent-Length: 0\r\n\r\n";

fn replies(alloc: Global) -> Result<Vec<Bytes>, AllocError> {
    let mut replies = Vec::new(alloc);
    for (reply, _, _) in REPLIES {
        replies.push(Bytes::from_slice(alloc, reply.as_bytes())?)?;
    }
    Ok(replies)
}

/// How many replies before the first that a relay doesn't pass on so.
fn first_kept_back(alloc: Global, relay: &mut Relay, link: &mut MemoryLink) -> Option<usize> {
    let paths = Paths::new(alloc);
    let mut cache = None;
    let mut host = RelayHost {
        alloc,
        paths: &paths,
        relay,
        link,
        cache: &mut cache,
    };
    for (before, (_, status, text)) in REPLIES.iter().enumerate() {
        if !answers(&mut host, &(Asking::Get, ABC, "", *status, *text)) {
            return Some(before);
        }
    }
    None
}

/// Whether the upstream was asked as often as it replied, each time for the file.
fn is_asked_once_each(link: &MemoryLink) -> bool {
    for asked in link.asked() {
        if asked.request.as_slice() != REQUEST.as_bytes() {
            return false;
        }
    }
    link.asked().len() == REPLIES.len()
}

#[test]
fn a_file_is_asked_for_upstream_once(rt: HostRuntime) -> Result<(), Fail> {
    let alloc = rt.alloc();
    let mut link = MemoryLink::new(alloc, replies(alloc)?, Vec::new(alloc));
    let mut relay = Relay::of_the_desk(alloc);
    let kept_back = first_kept_back(alloc, &mut relay, &mut link);
    let is_asked = is_asked_once_each(&link);
    drop(relay);
    drop(link);
    assert_eq!(rt; kept_back, None);
    assert!(rt; is_asked);
    Ok(())
}

/// The report of this number without rows.
fn numbered(alloc: Global, seq: u64) -> Result<Report, AllocError>
    requires { IsId seq }
    ensures { IfOk result IsReport }
{
    Ok(Report {
        form: Form::One,
        computer: Text::from_str(alloc, "pc2")?,
        seq,
        rows: ReportRows::from_vec(Vec::new(alloc)),
    })
}

/// Queues as many reports as there may be. The error is want of memory.
fn fill(alloc: Global, relay: &mut Relay) -> Result<(), AllocError> {
    for seq in 1..10_001u64 {
        let report = numbered(alloc, seq)?;
        match relay.up(&report) {
            RelayAnswer::Told(_) => {}
            RelayAnswer::Memory => return Err(AllocError),
        }
    }
    Ok(())
}

const FULL: [Row; 1] = [(Asking::Post, "/reports", REPORT, 507, "full 10000\n")];

#[test]
fn a_relay_with_a_full_queue_says_so(rt: HostRuntime) -> Result<(), Fail> {
    let alloc = rt.alloc();
    let mut relay = Relay::of_the_desk(alloc);
    let filled = fill(alloc, &mut relay);
    let mut link = MemoryLink::new(alloc, Vec::new(alloc), Vec::new(alloc));
    let untold = first_untold(alloc, &mut relay, &mut link, &FULL);
    drop(link);
    drop(relay);
    filled?;
    assert_eq!(rt; untold, None);
    Ok(())
}
