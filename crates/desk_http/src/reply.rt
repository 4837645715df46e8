ghost use Rattle.desk_http.specs.Replied.{ReadsReply};

use crate::fields::reply_length;
use crate::reading::HEAD_LIMIT;
use crate::request::FIELD_LIMIT;
use desk_base::Bytes;
use httparse::Status;
use httparse::spans::{EMPTY_HEADER_SPAN, parse_response};
use std::alloc::Global;

/// What the bytes of a reply say.
#[derive(Drop)]
pub enum ReadReply {
    /// A status and a body.
    Reply(u16, Bytes),
    /// They are no reply.
    Bad,
    /// Want of memory.
    Memory,
}

/// Reads a reply: a head of at most 16,384 bytes and 64 fields, one `Content-Length` among them, and exactly so many bytes behind it.
pub fn read_reply(alloc: Global, bytes: &[u8]) -> ReadReply
    ensures { ReadsReply bytes.now result }
{
    let mut fields = [EMPTY_HEADER_SPAN; FIELD_LIMIT];
    let Ok(Status::Complete(head)) = parse_response(bytes, &mut fields) else {
        return ReadReply::Bad;
    };
    if head.len > HEAD_LIMIT {
        return ReadReply::Bad;
    }
    let Some(length) = reply_length(bytes, &fields[..head.headers]) else {
        return ReadReply::Bad;
    };
    let body = &bytes[head.len..];
    if length != body.len() as u64 {
        return ReadReply::Bad;
    }
    match Bytes::from_slice(alloc, body) {
        Ok(body) => ReadReply::Reply(head.code, body),
        Err(_) => ReadReply::Memory,
    }
}
