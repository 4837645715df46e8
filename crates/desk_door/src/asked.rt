ghost use Rattle.std.specs.Prelude.{◌≡◌, IfOk};

use desk_base::Bytes;
use rel_lexer::Text;
use std::alloc::AllocError;

/// A request that a link was asked, and the upstream that was open then.
#[derive(Drop)]
pub struct Asked {
    /// None where none was opened before.
    pub upstream: Option<Text>,
    pub request: Bytes,
}

impl Asked {
    /// The same once more. The error is want of memory.
    pub fn copy(&self) -> Result<Asked, AllocError>
        ensures { IfOk result (λ asked. asked ≡ self.now) }
    {
        let upstream = match &self.upstream {
            Some(upstream) => Some(upstream.copy()?),
            None => None,
        };
        Ok(Asked {
            upstream,
            request: self.request.copy()?,
        })
    }
}
