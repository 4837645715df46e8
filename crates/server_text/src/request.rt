ghost use Rattle.std.specs.Prelude.{◌≡◌, IfOk};

use desk_base::Bytes;
use rel_lexer::Text;
use std::alloc::AllocError;

/// What a server is asked.
#[derive(Drop)]
pub enum Request {
    /// To keep the site of this text.
    Publish(Bytes),
    /// To keep the action of this text, and with it a new version of the site `actionsite`.
    Act(Bytes),
    /// To stop the action of this id, likewise.
    Stop(u64),
    /// To keep a file of these bytes.
    File(Bytes),
    /// Which sites there are, and of which versions.
    AskSites,
    /// For the text of the site of this name, where its version is greater than this one.
    AskSite(Text, u64),
    /// For the file of this SHA-256.
    AskFile([u8; 32]),
    /// To keep the report of this text.
    Report(Bytes),
    /// For the results of the computer of this name.
    Results(Text),
}

impl Request {
    /// The same request once more. The error is want of memory.
    pub fn copy(&self) -> Result<Request, AllocError>
        ensures { IfOk result (λ request. request ≡ self.now) }
    {
        Ok(match self {
            Request::Publish(text) => Request::Publish(text.copy()?),
            Request::Act(text) => Request::Act(text.copy()?),
            Request::Stop(id) => Request::Stop(*id),
            Request::File(bytes) => Request::File(bytes.copy()?),
            Request::AskSites => Request::AskSites,
            Request::AskSite(name, version) => Request::AskSite(name.copy()?, *version),
            Request::AskFile(digest) => Request::AskFile(*digest),
            Request::Report(text) => Request::Report(text.copy()?),
            Request::Results(name) => Request::Results(name.copy()?),
        })
    }
}
