// The state in the text of an action. A text that is none is taken as that of one that isn't stopped.
ghost use Rattle.std.specs.Prelude.{◌≡◌, ◌+◌, length, IfOk};
ghost use Rattle.server_text.specs.ActionStates.{before_state, is_stopped, stopped_text};

use desk_base::Bytes;
use std::alloc::{AllocError, Global};

/// The last two lines of an action.
const OPEN: &[u8] = b"state open\nend\n";

/// Those of a stopped one.
const STOPPED: &[u8] = b"state stopped\nend\n";

/// Whether the action of this text is stopped: whether it ends with `state stopped` and `end`.
pub fn is_stopped(text: &[u8]) -> bool
    ensures { result ≡ is_stopped text.now }
{
    text.ends_with(STOPPED)
}

/// The text of an action before its state, without its last two lines. It tells which action it is, stopped or not.
pub fn before_state(text: &[u8]) -> &[u8]
    ensures { result.now ≡ before_state text.now }
{
    let end = if is_stopped(text) { STOPPED } else { OPEN };
    &text[..text.len().saturating_sub(end.len())]
}

/// The text of the same action, stopped. The error is want of memory.
pub fn stopped_text(alloc: Global, text: &[u8]) -> Result<Bytes, AllocError>
    ensures { IfOk result (λ stopped. stopped ≡ stopped_text text.now) }
{
    let mut stopped = Bytes::from_slice(alloc, before_state(text))?;
    stopped.extend(STOPPED)?;
    Ok(stopped)
}

/// The bytes of that text.
pub(crate) fn stopped_len(text: &[u8]) -> usize
    ensures { result ≡ length (stopped_text text.now) }
{
    before_state(text).len() + STOPPED.len()
}
