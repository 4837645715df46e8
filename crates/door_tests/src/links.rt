use desk_base::Bytes;
use desk_door::{Asked, Exchanged, Link, MemoryLink};
use rel_lexer::Text;
use std::alloc::Global;
use std::mem::drop;
use std::test::Fail;

/// The replies, of which the second exchange, which is to fail, uses up none.
const REPLIES: [&str; 2] = ["first", "second"];

/// Requests, the upstream that is opened before each, and what it answers: the reply, or a word.
const ROWS: [(&str, &str, &str); 4] = [
    ("", "a", "first"),
    ("up:1", "b", "failed"),
    ("up:1", "c", "second"),
    ("other:2", "d", "failed"),
];

/// Whether an answer is this one, as a copy of it tells.
fn is_answer(exchanged: &Exchanged, answer: &str) -> bool {
    let Ok(copy) = exchanged.copy() else {
        return false;
    };
    let is = match &copy {
        Exchanged::Reply(bytes) => bytes.as_slice() == answer.as_bytes(),
        Exchanged::Failed => answer == "failed",
        Exchanged::Memory => answer == "memory",
    };
    drop(copy);
    is
}

/// Whether an exchange answers so, where the link is opened before it and pauses behind it.
fn answers<L: Link>(alloc: Global, link: &mut L, row: (&str, &str, &str)) -> Result<bool, Fail> {
    let (upstream, request, answer) = row;
    if !upstream.is_empty() {
        link.open(&Text::from_str(alloc, upstream)?)?;
    }
    let exchanged = link.exchange(request.as_bytes());
    let is = is_answer(&exchanged, answer);
    drop(exchanged);
    link.pause();
    Ok(is)
}

/// Whether a request was kept with its upstream, as a copy of it tells.
fn is_kept(asked: &Asked, row: (&str, &str, &str)) -> bool {
    let Ok(copy) = asked.copy() else {
        return false;
    };
    let upstream = match &copy.upstream {
        Some(upstream) => upstream.as_str(),
        None => "",
    };
    let is = upstream == row.0 && copy.request.as_slice() == row.1.as_bytes();
    drop(copy);
    is
}

fn link(alloc: Global) -> Result<MemoryLink, Fail> {
    let mut replies = Vec::new(alloc);
    for reply in REPLIES {
        replies.push(Bytes::from_slice(alloc, reply.as_bytes())?)?;
    }
    Ok(MemoryLink::new(alloc, replies, [2].to_vec(alloc)?))
}

#[test]
fn requests_are_answered_in_order(rt: HostRuntime) -> Result<(), Fail> {
    let alloc = rt.alloc();
    let mut link = link(alloc)?;
    for row in ROWS {
        assert!(rt; answers(alloc, &mut link, row)?, "{}", row.1);
    }
    let asked = link.asked();
    assert_eq!(rt; asked.len(), ROWS.len());
    for (kept, row) in asked.iter().zip(ROWS) {
        assert!(rt; is_kept(kept, row), "{}", row.1);
    }
    Ok(())
}
