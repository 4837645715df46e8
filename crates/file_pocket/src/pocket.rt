ghost use Rattle.std.specs.Prelude.{◌≡◌, ◌≤◌, None, IfOk};
ghost use Rattle.desk_base.specs.Counts.{Rose};

use crate::PocketHost;
use crate::hold::Hold;
use crate::reading::text_at;
use crate::replace::replace;
use agent_text::{Loaded, Pocket, SaveResult};
use desk_base::Bytes;
use edge_faults::{Faults, Trouble};
use rel_lexer::Text;
use std::alloc::AllocError;
use std::io::Error;

/// A pocket in a file. From its opening on a lock on a file beside it keeps other processes out; where it can't have that, each load and save
/// fails.
#[derive(Drop)]
pub struct FilePocket<H: PocketHost> {
    host: H,
    hold: Hold,
    faults: Faults<H>,
}

impl<H: PocketHost> FilePocket<H> {
    /// A pocket that isn't open. The error is want of memory.
    pub fn new(host: H) -> Result<FilePocket<H>, AllocError>
        ensures { IfOk result (λ pocket. pocket.faults ≡ 0) }
    {
        let errors = host.clone()?;
        Ok(FilePocket {
            host,
            hold: Hold::Nothing,
            faults: Faults::none("pocket", errors),
        })
    }

    fn text(&self) -> Result<Option<Bytes>, Trouble> {
        let held = self.hold.held()?;
        text_at(&self.host, held.place.as_str())
    }

    fn put(&self, text: &[u8]) -> Result<(), Trouble> {
        let held = self.hold.held()?;
        replace(&self.host, held, text)
    }

    /// Counts a fault and tells it.
    fn fault(&mut self, call: &str, error: Error)
        ensures rose { Rose self.old.faults self.new.faults }
        ensures later { self.old.faults ≤ self.new.faults }
    {
        self.faults.add(call, self.hold.name(), error);
    }
}

impl<H: PocketHost> Pocket for FilePocket<H> {
    ghost told = { λ p. record { saved = None; faults = p.faults } };

    fn open(&mut self, place: &Text) -> Result<(), AllocError> {
        // the lock of before is let go of first, since a place may be opened again
        self.hold = Hold::Nothing;
        self.hold = Hold::of(&self.host, place)?;
        Ok(())
    }

    fn load(&mut self) -> Loaded {
        match self.text() {
            Ok(Some(text)) => Loaded::Saved(text),
            Ok(None) => Loaded::Nothing,
            Err(Trouble::Memory) => Loaded::Memory,
            Err(Trouble::System(error)) => {
                self.fault("load", error);
                Loaded::Failed
            }
        }
    }

    fn save(&mut self, text: &[u8]) -> SaveResult {
        match self.put(text) {
            Ok(()) => SaveResult::Done,
            Err(Trouble::Memory) => SaveResult::Memory,
            Err(Trouble::System(error)) => {
                self.fault("save", error);
                SaveResult::Failed
            }
        }
    }
}
