// What is heard in conversations and what is answered, by hand from the rules in docs/HTTP.md. Each row is plain data, and one function
// has the conversations of a table.
use crate::echo::{Heard, talk};
use desk_http::Routes;
use std::alloc::{AllocError, Global};
use std::mem::drop;
use std::test::Fail;

pub const TOO_LONG: &str =
    "HTTP/1.1 413 Content Too Large\r\nContent-Length: 9\r\nConnection: close\r\n\r\ntoo long\n";

/// What is written where a conversation ends so, and nothing was called.
fn refusal(met: &str) -> &'static str {
    match met {
        "400" =>
            "HTTP/1.1 400 Bad Request\r\nContent-Length: 12\r\nConnection: close\r\n\r\nbad request\n",
        "404" =>
            "HTTP/1.1 404 Not Found\r\nContent-Length: 8\r\nConnection: close\r\n\r\nno such\n",
        "413" => TOO_LONG,
        _ => "",
    }
}

/// Whether a conversation ended so with the host as it was, and what was to be written was, and no more. The door is told whether all of
/// the request was read.
fn is_refused(heard: Heard, met: &str, whole: bool) -> bool {
    heard.met == met && heard.calls == 0 && heard.behind == Some(0) && heard.whole == Some(whole)
}

/// The first of these conversations with a server that isn't refused so.
fn first_unrefused(
    alloc: Global,
    conversations: &[&'static str],
    met: &str,
    whole: bool,
) -> Result<Option<&'static str>, AllocError> {
    for said in conversations {
        let heard = talk(alloc, Routes::Server, said.as_bytes(), &[], refusal(met))?;
        if !is_refused(heard, met, whole) {
            return Ok(Some(*said));
        }
    }
    Ok(None)
}

/// What the peer says, and what is written. The host is called.
const CALLS: [(&str, &str); 14] = [
    (
        "GET /sites HTTP/1.1\r\nHost: desk\r\n\r\n",
        "HTTP/1.1 200 OK\r\nContent-Length: 11\r\nConnection: close\r\n\r\nGET /sites ",
    ),
    (
        "GET /sites/desk/0 HTTP/1.1\r\nHost: desk\r\n\r\n",
        "HTTP/1.1 200 OK\r\nContent-Length: 18\r\nConnection: close\r\n\r\nGET /sites/desk/0 ",
    ),
    (
        "GET /sites/a/9007199254740992 HTTP/1.1\r\nHost: desk\r\n\r\n",
        "HTTP/1.1 200 OK\r\nContent-Length: 30\r\nConnection: close\r\n\r\nGET /sites/a/9007199254740992 ",
    ),
    (
        "GET /results/pc1 HTTP/1.1\r\nHost: desk\r\n\r\n",
        "HTTP/1.1 200 OK\r\nContent-Length: 17\r\nConnection: close\r\n\r\nGET /results/pc1 ",
    ),
    (
        "GET /files/da39a3ee5e6b4b0d3255bfef95601890afd80709da39a3ee5e6b4b0d3255bfef HTTP/1.1\r\nHost: desk\r\n\r\n",
        "HTTP/1.1 200 OK\r\nContent-Length: 76\r\nConnection: close\r\n\r\nGET /files/da39a3ee5e6b4b0d3255bfef95601890afd80709da39a3ee5e6b4b0d3255bfef ",
    ),
    (
        "POST /actions/1/stop HTTP/1.1\r\nHost: desk\r\n\r\n",
        "HTTP/1.1 200 OK\r\nContent-Length: 21\r\nConnection: close\r\n\r\nPOST /actions/1/stop ",
    ),
    (
        "POST /actions/9007199254740992/stop HTTP/1.1\r\nHost: desk\r\nContent-Length: 2\r\n\r\nab",
        "HTTP/1.1 200 OK\r\nContent-Length: 38\r\nConnection: close\r\n\r\nPOST /actions/9007199254740992/stop ab",
    ),
    // a byte behind the body
    (
        "POST /sites HTTP/1.1\r\nHost: desk\r\nContent-Length: 2\r\n\r\nabc",
        "HTTP/1.1 200 OK\r\nContent-Length: 14\r\nConnection: close\r\n\r\nPOST /sites ab",
    ),
    (
        "POST /actions HTTP/1.1\r\nHost: desk\r\nContent-Length: 1\r\n\r\na",
        "HTTP/1.1 200 OK\r\nContent-Length: 15\r\nConnection: close\r\n\r\nPOST /actions a",
    ),
    (
        "POST /files HTTP/1.1\r\nHost: desk\r\nContent-Length: 1\r\n\r\na",
        "HTTP/1.1 200 OK\r\nContent-Length: 13\r\nConnection: close\r\n\r\nPOST /files a",
    ),
    (
        "POST /reports HTTP/1.1\r\nHost: desk\r\nContent-Length: 56\r\n\r\nreport 1\ncomputer pc1\nseq 1\nrow 7 1 fixed 1000 1010\nend\n",
        "HTTP/1.1 200 OK\r\nContent-Length: 70\r\nConnection: close\r\n\r\nPOST /reports report 1\ncomputer pc1\nseq 1\nrow 7 1 fixed 1000 1010\nend\n",
    ),
    // lines that end in LF alone, empty lines before the request line, a name in another case, no length
    (
        "\r\n\nGET /sites HTTP/1.1\nhOST:\n\n",
        "HTTP/1.1 200 OK\r\nContent-Length: 11\r\nConnection: close\r\n\r\nGET /sites ",
    ),
    // an HTTP/1.0 head needs no Host
    (
        "GET /sites HTTP/1.0\r\n\r\n",
        "HTTP/1.1 200 OK\r\nContent-Length: 11\r\nConnection: close\r\n\r\nGET /sites ",
    ),
    // white space around a length
    (
        "GET /sites HTTP/1.0\r\nContent-Length: \t 1 \t\r\n\r\nx",
        "HTTP/1.1 200 OK\r\nContent-Length: 12\r\nConnection: close\r\n\r\nGET /sites x",
    ),
];

/// The first of these conversations in which the host isn't called once, or another thing is written.
fn first_uncalled(
    alloc: Global,
    rows: &[(&'static str, &'static str)],
) -> Result<Option<&'static str>, AllocError> {
    for (said, written) in rows {
        let heard = talk(alloc, Routes::Server, said.as_bytes(), &[], written)?;
        let is_called = heard.met == "200" && heard.calls == 1 && heard.whole == Some(true);
        if !is_called || heard.behind != Some(0) {
            return Ok(Some(*said));
        }
    }
    Ok(None)
}

#[test]
fn each_call_has_its_answer(rt: HostRuntime) -> Result<(), Fail> {
    assert_eq!(rt; first_uncalled(rt.alloc(), &CALLS)?, None);
    Ok(())
}

/// Heads that aren't good, and bodies that are cut.
const BAD: [&str; 13] = [
    "x",
    "x\r\n\r\n",
    "GET /sites",
    "GET /sites HTTP/1.1\r\n\r\n",
    "GET /sites HTTP/1.1\r\nHost: desk\r\nHost: desk\r\n\r\n",
    "GET /sites HTTP/1.0\r\nHost: desk\r\nHost: desk\r\n\r\n",
    "GET /sites HTTP/1.1\r\nHost: desk\r\nTransfer-Encoding: chunked\r\n\r\n",
    "POST /reports HTTP/1.1\r\nHost: desk\r\nContent-Length: 1\r\nContent-Length: 1\r\n\r\na",
    "POST /reports HTTP/1.1\r\nHost: desk\r\nContent-Length: 1\r\n\r\n",
    "POST /reports HTTP/1.1\r\nHost: desk\r\nContent-Length: 56\r\n\r\nreport 1\ncomputer pc1\nseq 1\nrow 7 1 fix",
    "POST /actions/1/stop HTTP/1.1\r\nHost: desk\r\nContent-Length: 3\r\n\r\nab",
    "GET /sites HTTP/1.1\r\nHost: desk\r\nContent-Length: 3\r\n\r\nab",
    "GET /sites HTTP/1.1\r\nHost: desk\r\nContent-Length: 1\r\n\r\n",
];

/// Lengths that aren't one decimal number.
const LENGTHS: [&str; 6] = [
    "GET /sites HTTP/1.0\r\nContent-Length: 056\r\n\r\n",
    "GET /sites HTTP/1.0\r\nContent-Length: +5\r\n\r\n",
    "GET /sites HTTP/1.0\r\nContent-Length: -0\r\n\r\n",
    "GET /sites HTTP/1.0\r\nContent-Length: 5, 5\r\n\r\n",
    "GET /sites HTTP/1.0\r\nContent-Length: \r\n\r\n",
    "GET /sites HTTP/1.0\r\nContent-Length: 5a\r\n\r\n",
];

#[test]
fn what_is_not_good_is_a_bad_request(rt: HostRuntime) -> Result<(), Fail> {
    let alloc = rt.alloc();
    assert_eq!(rt; first_unrefused(alloc, &BAD, "400", false)?, None);
    assert_eq!(rt; first_unrefused(alloc, &LENGTHS, "400", false)?, None);
    assert_eq!(rt; first_unrefused(alloc, &[""], "closed", false)?, None);
    Ok(())
}

#[test]
fn a_target_is_utf8(rt: HostRuntime) -> Result<(), Fail> {
    let said = b"GET /sites/\xff/1 HTTP/1.1\r\nHost: desk\r\n\r\n".as_slice();
    let heard = talk(rt.alloc(), Routes::Server, said, &[], refusal("400"))?;
    assert!(rt; is_refused(heard, "400", false));
    Ok(())
}

/// What is no route, with a body that came whole, or with bytes behind it, or with none; then a target beyond ASCII.
const NO_SUCH: [&str; 4] = [
    "GET /nothing HTTP/1.1\r\nHost: desk\r\n\r\n",
    "GET /nothing HTTP/1.1\r\nHost: desk\r\nContent-Length: 2\r\n\r\nab",
    "GET /nothing HTTP/1.1\r\nHost: desk\r\nContent-Length: 2\r\n\r\nabc",
    "GET /sites/é/1 HTTP/1.1\r\nHost: desk\r\n\r\n",
];

/// Bodies above their limits.
const LONG: [&str; 3] = [
    "POST /reports HTTP/1.1\r\nHost: desk\r\nContent-Length: 65537\r\n\r\n",
    "POST /sites HTTP/1.1\r\nHost: desk\r\nContent-Length: 4194305\r\n\r\n",
    "GET /sites HTTP/1.1\r\nHost: desk\r\nContent-Length: 340282366920938463463374607431768211456\r\n\r\n",
];

#[test]
fn a_door_is_told_whether_all_was_read(rt: HostRuntime) -> Result<(), Fail> {
    let alloc = rt.alloc();
    assert_eq!(rt; first_unrefused(alloc, &NO_SUCH, "404", true)?, None);
    let cut = "GET /nothing HTTP/1.1\r\nHost: desk\r\nContent-Length: 2\r\n\r\na";
    assert_eq!(rt; first_unrefused(alloc, &[cut], "404", false)?, None);
    assert_eq!(rt; first_unrefused(alloc, &LONG, "413", false)?, None);
    Ok(())
}

/// Two checks that fail at once: the earlier one answers. Here it is the head's;
const BAD_FIRST: [&str; 2] = [
    "GET /nothing HTTP/1.1\r\n\r\n",
    "POST /reports HTTP/1.1\r\nContent-Length: 65537\r\nTransfer-Encoding: gzip\r\n\r\n",
];

/// here the path's;
const NO_SUCH_FIRST: [&str; 2] = [
    "GET /nothing HTTP/1.1\r\nHost: desk\r\nContent-Length: 4194305\r\n\r\n",
    "GET /nothing HTTP/1.1\r\nHost: desk\r\nContent-Length: 18446744073709551616\r\n\r\n",
];

/// and here the limit's.
const LONG_FIRST: [&str; 1] = [
    "POST /reports HTTP/1.1\r\nHost: desk\r\nContent-Length: 65537\r\n\r\ncut",
];

#[test]
fn of_two_checks_the_earlier_answers(rt: HostRuntime) -> Result<(), Fail> {
    let alloc = rt.alloc();
    assert_eq!(rt; first_unrefused(alloc, &BAD_FIRST, "400", false)?, None);
    assert_eq!(rt; first_unrefused(alloc, &NO_SUCH_FIRST, "404", false)?, None);
    assert_eq!(rt; first_unrefused(alloc, &LONG_FIRST, "413", false)?, None);
    Ok(())
}

/// Methods and paths that are no route.
const NOWHERE: [&str; 18] = [
    "GET /nothing",
    "GET /sites/desk/01",
    "GET /sites/desk/9007199254740993",
    "GET /sites/desk/",
    "GET /sites/desk",
    "GET /sites/de%73k/1",
    "GET /sites/",
    "GET /sites?",
    "GET sites",
    "get /sites",
    "HEAD /sites",
    "DELETEDELETEDELETEDELETE /sites",
    "POST /results/pc1",
    "POST /actions/0/stop",
    "POST /actions/9007199254740993/stop",
    "POST /actions/1/stop/",
    "GET /files/da39a3ee5e6b4b0d3255bfef95601890afd80709da39a3ee5e6b4b0d3255bfe",
    "GET /files/DA39A3EE5E6B4B0D3255BFEF95601890AFD80709DA39A3EE5E6B4B0D3255BFEF",
];

/// The routes that a relay lacks.
const AT_A_SERVER: [&str; 5] = [
    "POST /sites",
    "POST /actions",
    "POST /actions/1/stop",
    "POST /files",
    "GET /results/pc1",
];

/// The routes that a relay has.
const AT_A_RELAY: [&str; 4] = [
    "GET /sites",
    "GET /sites/desk/1",
    "GET /files/da39a3ee5e6b4b0d3255bfef95601890afd80709da39a3ee5e6b4b0d3255bfef",
    "POST /reports",
];

/// A request of a method and a path without a body.
fn ask(alloc: Global, routes: Routes, line: &str, first: &str) -> Result<Heard, AllocError> {
    let said = format!(in alloc; "{line} HTTP/1.1\r\nHost: desk\r\n\r\n")?;
    let heard = talk(alloc, routes, said.as_bytes(), &[], first)?;
    drop(said);
    Ok(heard)
}

/// The first of these methods and paths that is a route.
fn first_route(
    alloc: Global,
    routes: Routes,
    lines: &[&'static str],
) -> Result<Option<&'static str>, AllocError> {
    for line in lines {
        let heard = ask(alloc, routes, line, refusal("404"))?;
        if !is_refused(heard, "404", true) {
            return Ok(Some(*line));
        }
    }
    Ok(None)
}

#[test]
fn what_is_no_route_is_no_such(rt: HostRuntime) -> Result<(), Fail> {
    assert_eq!(rt; first_route(rt.alloc(), Routes::Server, &NOWHERE)?, None);
    Ok(())
}

#[test]
fn a_relay_has_four_routes(rt: HostRuntime) -> Result<(), Fail> {
    let alloc = rt.alloc();
    assert_eq!(rt; first_route(alloc, Routes::Relay, &AT_A_SERVER)?, None);
    for line in &AT_A_RELAY {
        let heard = ask(alloc, Routes::Relay, line, "")?;
        assert!(rt; heard.met == "200" && heard.calls == 1, "at {line:?}");
    }
    Ok(())
}
