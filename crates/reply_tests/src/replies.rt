// Each line of the table of replies, by hand from docs/HTTP.md.
use act_rules::{NO_NOTE, Note, Outcome};
use desk_base::Bytes;
use desk_http::Called;
use desk_keep::ResultRow;
use http_replies::{Answer, Reply};
use rel_lexer::Text;
use report_text::ReportRow;
use server_text::{ResultRows, SiteVersion, SiteVersions};
use std::alloc::{AllocError, Global};
use std::mem::drop;
use std::test::Fail;

const DIGEST: [u8; 32] = [0xab; 32];

fn sites(alloc: Global) -> Result<SiteVersions, AllocError> {
    let mut sites = SiteVersions::new(alloc);
    for (name, version) in [("desk", 3), ("other", 9_007_199_254_740_992)] {
        let name = Text::from_str(alloc, name)?;
        sites.push(SiteVersion { name, version })?;
    }
    Ok(sites)
}

/// An attempt that failed, and one that runs.
fn results(alloc: Global) -> Result<ResultRows, AllocError> {
    let failed = ReportRow {
        action: 7,
        number: 2,
        begun: 1000,
        end: Some((1060, Outcome::Failed)),
        note: Note {
            exit: Some(-3),
            place: Some((1, 9)),
        },
    };
    let running = ReportRow {
        action: 8,
        number: 1,
        begun: 1050,
        end: None,
        note: NO_NOTE,
    };
    let mut rows = ResultRows::new(alloc);
    for (row, seq) in [(failed, 4), (running, 5)] {
        let computer = Text::from_str(alloc, "pc1")?;
        rows.push(ResultRow { computer, row, seq })?;
    }
    Ok(rows)
}

/// Whether an answer has this status and this body.
fn is_called(alloc: Global, answer: Answer, status: u16, body: &str) -> bool {
    let called = answer.called(alloc);
    let is = match &called {
        Called::Answer(code, text) => *code == status && text.as_slice() == body.as_bytes(),
        Called::Memory => false,
    };
    drop(called);
    is
}

/// Whether a reply of a server has them.
fn is_replied(alloc: Global, reply: Reply, status: u16, body: &str) -> bool {
    is_called(alloc, Answer::Reply(reply), status, body)
}

#[test]
fn what_is_kept_has_its_status_and_its_body(rt: HostRuntime) -> Result<(), Fail> {
    let alloc = rt.alloc();
    assert!(rt; is_replied(alloc, Reply::Ok, 200, "ok\n"));
    assert!(rt; is_replied(alloc, Reply::Again, 200, "again\n"));
    assert!(rt; is_replied(alloc, Reply::Same, 200, "same\n"));
    let digest = "ok abababababababababababababababababababababababababababababababab\n";
    assert!(rt; is_replied(alloc, Reply::Digest(DIGEST), 200, digest));
    let site = Bytes::from_slice(alloc, b"site x 1\n")?;
    assert!(rt; is_replied(alloc, Reply::Site(site), 200, "site x 1\n"));
    let content = Bytes::from_slice(alloc, b"abc")?;
    assert!(rt; is_replied(alloc, Reply::Content(content), 200, "abc"));
    Ok(())
}

#[test]
fn each_table_has_its_lines(rt: HostRuntime) -> Result<(), Fail> {
    let alloc = rt.alloc();
    assert!(rt; is_replied(alloc, Reply::Sites(SiteVersions::new(alloc)), 200, ""));
    let lines = "desk 3\nother 9007199254740992\n";
    assert!(rt; is_replied(alloc, Reply::Sites(sites(alloc)?), 200, lines));
    assert!(rt; is_replied(alloc, Reply::Rows(ResultRows::new(alloc)), 200, ""));
    let lines = "7 2 failed 1000 1060 -3 1 9 4\n8 1 running 1050 - - - - 5\n";
    assert!(rt; is_replied(alloc, Reply::Rows(results(alloc)?), 200, lines));
    Ok(())
}

#[test]
fn each_refusal_has_its_status_and_its_body(rt: HostRuntime) -> Result<(), Fail> {
    let alloc = rt.alloc();
    assert!(rt; is_replied(alloc, Reply::BadText(3), 400, "bad text 3\n"));
    assert!(rt; is_replied(alloc, Reply::NoSuch, 404, "no such\n"));
    let conflict = "conflict abababababababababababababababababababababababababababababababab\n";
    assert!(rt; is_replied(alloc, Reply::Conflict(DIGEST), 409, conflict));
    assert!(rt; is_replied(alloc, Reply::Older(2), 409, "older 2\n"));
    assert!(rt; is_replied(alloc, Reply::KeeperFault, 500, "keeper fault\n"));
    assert!(rt; is_replied(alloc, Reply::Full(3), 507, "full 3\n"));
    assert!(rt; matches!(Answer::Reply(Reply::Memory).called(alloc), Called::Memory));
    Ok(())
}

#[test]
fn a_relay_says_what_became_of_a_report(rt: HostRuntime) -> Result<(), Fail> {
    let alloc = rt.alloc();
    assert!(rt; is_called(alloc, Answer::Stored, 200, "stored\n"));
    assert!(rt; is_called(alloc, Answer::Carried, 200, "carried\n"));
    assert!(rt; is_called(alloc, Answer::LinkFault, 502, "link fault\n"));
    assert!(rt; is_called(alloc, Answer::BadAnswer, 502, "bad answer\n"));
    Ok(())
}
