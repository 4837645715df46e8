ghost use Rattle.std.specs.Prelude.{◌≡◌, IfOk};
ghost use Rattle.desk_http.specs.Asked.{ask_text};

use desk_base::{Bytes, decimal};
use route_rules::Asking;
use std::alloc::{AllocError, Global};

/// The bytes of a request. The error is want of memory.
#[tactic(auto, unfolding(crate::specs::Asked::ask_text))]
pub fn ask_bytes(
    alloc: Global,
    asking: Asking,
    path: &[u8],
    body: &[u8],
) -> Result<Bytes, AllocError>
    ensures { IfOk result (λ request. request ≡ ask_text asking path.now body.now) }
{
    let mut request = Bytes::from_slice(alloc, asking.word().as_bytes())?;
    request.extend(b" ")?;
    request.extend(path)?;
    request.extend(b" HTTP/1.1\r\nHost: desk\r\nContent-Length: ")?;
    decimal(body.len() as u64, &mut request)?;
    request.extend(b"\r\n\r\n")?;
    request.extend(body)?;
    Ok(request)
}
