ghost use Rattle.std.specs.Prelude.{◌≡◌, IfOk, OnOk, OnErr, Some};
ghost use Rattle.desk_door.specs.Links.{LinkView, AsksOnce};

use desk_base::Bytes;
use rel_lexer::Text;
use std::alloc::AllocError;

/// What a link answers that was asked a request.
#[derive(Drop)]
pub enum Exchanged {
    /// The bytes of the reply.
    Reply(Bytes),
    /// There is no reply, and the count of faults went up.
    Failed,
    /// Want of memory.
    Memory,
}

impl Exchanged {
    /// The same answer once more. The error is want of memory.
    pub fn copy(&self) -> Result<Exchanged, AllocError>
        ensures { IfOk result (λ exchanged. exchanged ≡ self.now) }
    {
        Ok(match self {
            Exchanged::Reply(bytes) => Exchanged::Reply(bytes.copy()?),
            Exchanged::Failed => Exchanged::Failed,
            Exchanged::Memory => Exchanged::Memory,
        })
    }
}

/// What asks an upstream, one request and its reply at a time.
pub trait Link {
    /// What it tells of itself.
    ghost told: { Self → LinkView };

    /// Names the upstream that is asked from now on. The error is want of memory.
    fn open(&mut self, upstream: &Text) -> Result<(), AllocError>
        ensures ok { OnOk result (told self.new ≡ record (told self.old) { upstream = Some upstream.now }) }
        ensures err { OnErr result (told self.new ≡ told self.old) };

    /// Asks the upstream that was opened last a request, and takes its reply.
    fn exchange(&mut self, request: &[u8]) -> Exchanged
        ensures { AsksOnce request.now (told self.old) result (told self.new) };

    /// Waits between two rounds of requests.
    fn pause(&mut self)
        ensures { told self.new ≡ told self.old };
}
