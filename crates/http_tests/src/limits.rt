// The limits of a head, faults of a door, and large bodies.
use crate::conversations::TOO_LONG;
use crate::echo::{Heard, talk, talk_poorly, talk_twice};
use desk_base::Bytes;
use desk_http::Routes;
use std::alloc::{AllocError, Global};
use std::mem::drop;
use std::test::Fail;

/// A head of so many bytes in all, in one field behind Host, with these bytes before it.
fn head_of(alloc: Global, before: &[u8], length: usize) -> Result<Bytes, AllocError> {
    let mut head = Bytes::from_slice(alloc, before)?;
    head.extend(b"GET /sites HTTP/1.1\r\nHost: desk\r\nPad: ")?;
    for _ in head.as_slice().len()..length.saturating_sub(4) {
        head.push(b'x')?;
    }
    head.extend(b"\r\n\r\n")?;
    Ok(head)
}

/// A head with so many fields.
fn fields_of(alloc: Global, count: u32) -> Result<Bytes, AllocError> {
    let mut head = Bytes::from_slice(alloc, b"GET /sites HTTP/1.1\r\nHost: desk\r\n")?;
    for _ in 1..count {
        head.extend(b"Pad: x\r\n")?;
    }
    head.extend(b"\r\n")?;
    Ok(head)
}

/// How a request ends whose head has so many bytes.
fn ask_long(alloc: Global, before: &str, length: usize) -> Result<&'static str, AllocError> {
    let head = head_of(alloc, before.as_bytes(), length)?;
    let heard = talk(alloc, Routes::Server, head.as_slice(), &[], "")?;
    drop(head);
    Ok(heard.met)
}

/// How a request ends whose head has so many fields.
fn ask_with_fields(alloc: Global, count: u32) -> Result<&'static str, AllocError> {
    let head = fields_of(alloc, count)?;
    let heard = talk(alloc, Routes::Server, head.as_slice(), &[], "")?;
    drop(head);
    Ok(heard.met)
}

/// What comes before a head, how many bytes there are in all, and how the request ends. Empty lines count.
const LONG: [(&str, usize, &str); 6] = [
    ("", 16_383, "200"),
    ("", 16_384, "200"),
    ("", 16_385, "400"),
    ("\r\n\n", 16_383, "200"),
    ("\r\n\n", 16_384, "200"),
    ("\r\n\n", 16_385, "400"),
];

#[test]
fn a_head_has_16384_bytes_and_64_fields_at_most(rt: HostRuntime) -> Result<(), Fail> {
    let alloc = rt.alloc();
    for (before, length, met) in &LONG {
        assert!(rt;
            ask_long(alloc, before, *length)? == *met,
            "at {length} with {before:?}"
        );
    }
    assert!(rt; ask_with_fields(alloc, 64)? == "200");
    assert!(rt; ask_with_fields(alloc, 65)? == "400");
    let endless = [b'x'; 16_385];
    let heard = talk(alloc, Routes::Server, &endless, &[], "")?;
    assert!(rt; heard.met == "400");
    Ok(())
}

const ASKED: &str = "GET /sites HTTP/1.1\r\nHost: desk\r\n\r\n";

const ANSWERED: &str =
    "HTTP/1.1 200 OK\r\nContent-Length: 11\r\nConnection: close\r\n\r\nGET /sites ";

const NO_MEMORY: &str =
    "HTTP/1.1 503 Service Unavailable\r\nContent-Length: 7\r\nConnection: close\r\n\r\nmemory\n";

/// What the peer says, which call of the door fails, how it ends, how often the host is called, whether all was read, and what is written.
struct Fault {
    said: &'static str,
    fails: u32,
    met: &'static str,
    calls: u32,
    whole: bool,
    written: &'static str,
}

const FAULTS: [Fault; 4] = [
    // a read
    Fault {
        said: ASKED,
        fails: 2,
        met: "door fault",
        calls: 0,
        whole: false,
        written: "",
    },
    // a write
    Fault {
        said: ASKED,
        fails: 3,
        met: "door fault",
        calls: 1,
        whole: true,
        written: "",
    },
    // none: a small response is one write
    Fault {
        said: ASKED,
        fails: 4,
        met: "200",
        calls: 1,
        whole: true,
        written: ANSWERED,
    },
    // the write of a refusal
    Fault {
        said: "x",
        fails: 4,
        met: "door fault",
        calls: 0,
        whole: false,
        written: "",
    },
];

/// Whether a conversation with this fault comes to this.
fn is_faulty(alloc: Global, fault: &Fault) -> Result<bool, AllocError> {
    let said = fault.said.as_bytes();
    let heard = talk(alloc, Routes::Server, said, &[fault.fails], fault.written)?;
    let is_heard = heard.met == fault.met && heard.calls == fault.calls;
    Ok(is_heard && heard.whole == Some(fault.whole) && heard.behind == Some(0))
}

#[test]
fn a_fault_of_the_door_ends_a_conversation(rt: HostRuntime) -> Result<(), Fail> {
    let alloc = rt.alloc();
    for fault in &FAULTS {
        assert!(rt; is_faulty(alloc, fault)?, "at {}", fault.fails);
    }
    Ok(())
}

/// Whether the conversation after one with a fault is answered, with so many calls in both.
fn is_heard_after(alloc: Global, fails: u32, calls: u32) -> Result<bool, AllocError> {
    let heard = talk_twice(alloc, ASKED.as_bytes(), &[fails], ANSWERED)?;
    Ok(heard.met == "200" && heard.calls == calls && heard.behind == Some(0))
}

#[test]
fn the_next_conversation_is_heard_after_a_fault(rt: HostRuntime) -> Result<(), Fail> {
    let alloc = rt.alloc();
    // of a read, and of a write
    assert!(rt; is_heard_after(alloc, 2, 1)?);
    assert!(rt; is_heard_after(alloc, 3, 2)?);
    Ok(())
}

/// Whether memory ran out in the one call of the host, and this was written, where these calls of the door fail.
fn is_poor(alloc: Global, fails: &[u32], written: &str) -> Result<bool, AllocError> {
    let heard = talk_poorly(alloc, ASKED.as_bytes(), fails, written)?;
    let is_heard = heard.met == "memory" && heard.calls == 1;
    Ok(is_heard && heard.whole == Some(true) && heard.behind == Some(0))
}

#[test]
fn want_of_memory_is_503(rt: HostRuntime) -> Result<(), Fail> {
    let alloc = rt.alloc();
    assert!(rt; is_poor(alloc, &[], NO_MEMORY)?);
    assert!(rt; is_poor(alloc, &[3], "")?);
    Ok(())
}

/// What is said in a POST with a body of so many bytes, and one byte behind it.
fn post_of(alloc: Global, path: &str, length: usize) -> Result<Bytes, AllocError> {
    let head = format!(in alloc;
        "POST {path} HTTP/1.1\r\nHost: desk\r\nContent-Length: {length}\r\n\r\n"
    )?;
    let mut said = Bytes::from_slice(alloc, head.as_bytes())?;
    let piece = [b'y'; 65_536];
    for _ in 0..length / 65_536 {
        said.extend(&piece)?;
    }
    for _ in 0..length % 65_536 {
        said.push(b'y')?;
    }
    said.push(b'z')?;
    Ok(said)
}

/// A POST with a body of so many bytes, and one byte behind it.
fn send(alloc: Global, path: &str, length: usize, first: &str) -> Result<Heard, AllocError> {
    let said = post_of(alloc, path, length)?;
    let heard = talk(alloc, Routes::Server, said.as_slice(), &[], first)?;
    drop(said);
    Ok(heard)
}

/// A body of a POST, how it is answered, whether all was read, how many bytes of the conversation aren't taken, and what the response is:
/// these bytes, and so many behind them.
struct Sent {
    path: &'static str,
    length: usize,
    met: &'static str,
    whole: bool,
    left: usize,
    first: &'static str,
    behind: usize,
}

// None behind a body is taken, and of what is refused no more than a head may have.
const SENT: [Sent; 4] = [
    Sent {
        path: "/reports",
        length: 65_536,
        met: "200",
        whole: true,
        left: 1,
        first: "HTTP/1.1 200 OK\r\nContent-Length: 65550\r\nConnection: close\r\n\r\nPOST /reports ",
        behind: 65_536,
    },
    Sent {
        path: "/reports",
        length: 65_537,
        met: "413",
        whole: false,
        left: 49_215,
        first: TOO_LONG,
        behind: 0,
    },
    Sent {
        path: "/files",
        length: 4_194_304,
        met: "200",
        whole: true,
        left: 1,
        first: "HTTP/1.1 200 OK\r\nContent-Length: 4194316\r\nConnection: close\r\n\r\nPOST /files ",
        behind: 4_194_304,
    },
    Sent {
        path: "/files",
        length: 4_194_305,
        met: "413",
        whole: false,
        left: 4_177_983,
        first: TOO_LONG,
        behind: 0,
    },
];

/// Whether such a body comes to this.
fn is_sent(alloc: Global, sent: &Sent) -> Result<bool, AllocError> {
    let heard = send(alloc, sent.path, sent.length, sent.first)?;
    let is_heard = heard.met == sent.met && heard.whole == Some(sent.whole);
    Ok(is_heard && heard.left == sent.left && heard.behind == Some(sent.behind))
}

#[test]
fn a_body_is_as_long_as_its_route_allows(rt: HostRuntime) -> Result<(), Fail> {
    let alloc = rt.alloc();
    for sent in &SENT {
        assert!(rt; is_sent(alloc, sent)?, "at {}", sent.length);
    }
    Ok(())
}
