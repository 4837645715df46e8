ghost use Rattle.std.specs.Prelude.{◌≡◌, []};
ghost use Rattle.desk_http.specs.Reading.{OnlyReads, TakesRequest, is_whole};

use crate::fields::request_length;
use crate::reading::{Head, Rest, read_head, read_rest};
use desk_base::Bytes;
use desk_door::Door;
use httparse::spans::{EMPTY_HEADER_SPAN, Span};
use route_rules::{Asking, Paths, Routes, find_route};
use std::alloc::Global;

/// The most fields of a head.
pub(crate) const FIELD_LIMIT: usize = 64;

/// How many bytes are read at once.
const ROOM: usize = 16_384;

/// Why a request is no call.
#[derive(Clone, Copy)]
pub enum Refusal {
    /// Its head isn't read, or its body is cut.
    BadRequest,
    /// There is no such route.
    NoSuch,
    /// Its body is longer than its route allows.
    TooLong,
}

/// A call, and where in the bytes that were read its path and its body are.
#[derive(Clone, Copy)]
pub(crate) struct CallSpans {
    pub asking: Asking,
    pub path: Span,
    pub body: Span,
}

/// What reading a request answers.
#[derive(Clone, Copy)]
pub(crate) enum Taken {
    Call(CallSpans),
    /// A refusal, and whether all of the request was taken nevertheless.
    Refused { refusal: Refusal, whole: bool },
    /// There was no byte.
    Closed,
    Failed,
    Memory,
}

/// A request whose head isn't read, or whose body is cut.
const UNREAD: Taken = Taken::Refused {
    refusal: Refusal::BadRequest,
    whole: false,
};

impl Taken {
    /// Whether all of a request was taken.
    pub(crate) fn is_whole(self) -> bool
        ensures { result ≡ is_whole self }
    {
        match self {
            Taken::Call(_) => true,
            Taken::Refused { whole, .. } => whole,
            Taken::Closed | Taken::Failed | Taken::Memory => false,
        }
    }
}

/// Reads a request.
pub(crate) fn read_request<D: Door>(
    alloc: Global,
    door: &mut D,
    buf: &mut Bytes,
    paths: &Paths,
    routes: Routes,
) -> Taken
    requires { buf.old ≡ [] }
    ensures takes { TakesRequest routes (D.told door.old).left (D.told door.new).left buf.new result }
    ensures only { OnlyReads (result ≡ Taken.Failed) (D.told door.old) (D.told door.new) }
{
    let mut room = [0u8; ROOM];
    let mut fields = [EMPTY_HEADER_SPAN; FIELD_LIMIT];
    let head = match read_head(door, &mut room, buf, &mut fields) {
        Head::Read(head) => head,
        Head::Bad => return UNREAD,
        Head::Closed => return Taken::Closed,
        Head::Failed => return Taken::Failed,
        Head::Memory => return Taken::Memory,
    };
    let Some(length) = request_length(head.version, buf.as_slice(), &fields[..head.headers]) else {
        return UNREAD;
    };
    let method = head.method.of(buf.as_slice());
    let path = head.path.of(buf.as_slice());
    let whole = length <= (buf.as_slice().len() - head.len) as u64;
    let (asking, most) = match find_route(alloc, paths, routes, method, path) {
        Ok(Some(route)) => (route.asking(), route.most()),
        Ok(None) => {
            return Taken::Refused {
                refusal: Refusal::NoSuch,
                whole,
            };
        }
        Err(_) => return Taken::Memory,
    };
    if length > most {
        return Taken::Refused {
            refusal: Refusal::TooLong,
            whole,
        };
    }
    let end = head.len + length as usize;
    match read_rest(alloc, door, &mut room, buf, end) {
        Rest::Whole => Taken::Call(CallSpans {
            asking,
            path: head.path,
            body: Span {
                start: head.len,
                end,
            },
        }),
        Rest::Cut => UNREAD,
        Rest::Failed => Taken::Failed,
        Rest::Memory => Taken::Memory,
    }
}
