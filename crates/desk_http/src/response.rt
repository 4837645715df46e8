ghost use Rattle.std.specs.Prelude.{◌≡◌, IfOk};
ghost use Rattle.desk_http.specs.Spoken.{reason, spoken, spoken_head, status_of, text_of, memory_text};

use crate::request::Refusal;
use desk_base::{Bytes, decimal};
use http::StatusCode;
use std::alloc::{AllocError, Global};

const BAD_REQUEST: &[u8] =
    b"HTTP/1.1 400 Bad Request\r\nContent-Length: 12\r\nConnection: close\r\n\r\nbad request\n";

const NO_SUCH: &[u8] =
    b"HTTP/1.1 404 Not Found\r\nContent-Length: 8\r\nConnection: close\r\n\r\nno such\n";

const TOO_LONG: &[u8] =
    b"HTTP/1.1 413 Content Too Large\r\nContent-Length: 9\r\nConnection: close\r\n\r\ntoo long\n";

const MEMORY: &[u8] =
    b"HTTP/1.1 503 Service Unavailable\r\nContent-Length: 7\r\nConnection: close\r\n\r\nmemory\n";

impl Refusal {
    /// The status of its response.
    pub fn status(self) -> u16
        ensures { result ≡ status_of self }
    {
        match self {
            Refusal::BadRequest => 400,
            Refusal::NoSuch => 404,
            Refusal::TooLong => 413,
        }
    }

    /// Its response.
    #[tactic(auto, using(crate::proofs::Saying::said_refusals))]
    pub(crate) fn response(self) -> &'static [u8]
        ensures { result.now ≡ spoken (status_of self) (text_of self) }
    {
        match self {
            Refusal::BadRequest => BAD_REQUEST,
            Refusal::NoSuch => NO_SUCH,
            Refusal::TooLong => TOO_LONG,
        }
    }
}

/// The response at want of memory. It takes none.
#[tactic(auto, using(crate::proofs::Saying::said_memory))]
pub(crate) fn memory_response() -> &'static [u8]
    ensures { result.now ≡ spoken 503 memory_text }
{
    MEMORY
}

/// The words that go with a status.
#[tactic(auto, unfolding(crate::specs::Spoken::reason))]
fn reason(status: StatusCode) -> &'static str
    ensures { result.now ≡ reason status }
{
    if status.as_u16() == 413 {
        return "Content Too Large";
    }
    match status.canonical_reason() {
        Some(reason) => reason,
        None => "",
    }
}

/// The head of a response with a body of so many bytes. The error is want of memory.
#[tactic(auto, unfolding(crate::specs::Spoken::spoken_head))]
pub(crate) fn head_of(alloc: Global, status: StatusCode, count: usize) -> Result<Bytes, AllocError>
    ensures { IfOk result (λ text. text ≡ spoken_head status count) }
{
    let mut head = Bytes::from_slice(alloc, b"HTTP/1.1 ")?;
    head.extend(status.as_str().as_bytes())?;
    head.extend(b" ")?;
    head.extend(reason(status).as_bytes())?;
    head.extend(b"\r\nContent-Length: ")?;
    decimal(count as u64, &mut head)?;
    head.extend(b"\r\nConnection: close\r\n\r\n")?;
    Ok(head)
}
