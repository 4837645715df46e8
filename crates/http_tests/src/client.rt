// The bytes of requests and of replies.
use desk_http::{Asking, ReadReply, ask_bytes, read_reply};
use std::alloc::Global;
use std::test::Fail;

/// Whether these are the bytes of a request.
fn is_asked(alloc: Global, asking: Asking, path: &str, body: &str, bytes: &str) -> bool {
    match ask_bytes(alloc, asking, path.as_bytes(), body.as_bytes()) {
        Ok(request) => request.as_slice() == bytes.as_bytes(),
        Err(_) => false,
    }
}

#[test]
fn a_request_has_its_bytes(rt: HostRuntime) -> Result<(), Fail> {
    let alloc = rt.alloc();
    let bytes = "GET /sites HTTP/1.1\r\nHost: desk\r\nContent-Length: 0\r\n\r\n";
    assert!(rt; is_asked(alloc, Asking::Get, "/sites", "", bytes));
    let bytes = "POST /reports HTTP/1.1\r\nHost: desk\r\nContent-Length: 9\r\n\r\nreport 1\n";
    assert!(rt; is_asked(alloc, Asking::Post, "/reports", "report 1\n", bytes));
    Ok(())
}

/// The status and the body of a reply, or `bad`.
const REPLIES: [(&str, Option<(u16, &str)>); 18] = [
    (
        "HTTP/1.1 200 OK\r\nContent-Length: 3\r\nConnection: close\r\n\r\nok\n",
        Some((200, "ok\n")),
    ),
    (
        "HTTP/1.1 404 \r\nContent-Length: 0\r\n\r\n",
        Some((404, "")),
    ),
    ("HTTP/1.0 507\ncontent-length:  1 \n\nx", Some((507, "x"))),
    (
        "HTTP/1.1 042 Low\r\nContent-Length: 0\r\n\r\n",
        Some((42, "")),
    ),
    (
        "HTTP/1.1 200 OK\r\nTransfer-Encoding: chunked\r\nContent-Length: 0\r\n\r\n",
        Some((200, "")),
    ),
    ("x", None),
    ("", None),
    ("HTTP/1.1 200 OK\r\n\r\n", None),
    ("HTTP/1.1 200 OK\r\nContent-Length: 3\r\n\r\nok", None),
    ("HTTP/1.1 200 OK\r\nContent-Length: 3\r\n\r\nok\n.", None),
    ("HTTP/1.1 200 OK\r\nContent-Length: 03\r\n\r\nok\n", None),
    ("HTTP/1.1 200 OK\r\nContent-Length: +3\r\n\r\nok\n", None),
    ("HTTP/1.1 200 OK\r\nContent-Length: 3, 3\r\n\r\nok\n", None),
    ("HTTP/1.1 200 OK\r\nContent-Length:\r\n\r\n", None),
    (
        "HTTP/1.1 200 OK\r\nContent-Length: 3\r\nContent-Length: 3\r\n\r\nok\n",
        None,
    ),
    (
        "HTTP/1.1 200 OK\r\nContent-Length: 18446744073709551616\r\n\r\n",
        None,
    ),
    ("HTTP/1.1 2000 OK\r\nContent-Length: 0\r\n\r\n", None),
    ("HTTP/2.0 200 OK\r\nContent-Length: 0\r\n\r\n", None),
];

fn is_read(alloc: Global, bytes: &[u8], wanted: Option<(u16, &str)>) -> bool {
    match (read_reply(alloc, bytes), wanted) {
        (ReadReply::Reply(status, body), Some((code, text))) => {
            status == code && body.as_slice() == text.as_bytes()
        }
        (ReadReply::Bad, None) => true,
        _ => false,
    }
}

#[test]
fn a_reply_is_read_or_bad(rt: HostRuntime) -> Result<(), Fail> {
    let alloc = rt.alloc();
    for (bytes, wanted) in REPLIES {
        assert!(rt; is_read(alloc, bytes.as_bytes(), wanted), "at {bytes:?}");
    }
    Ok(())
}
