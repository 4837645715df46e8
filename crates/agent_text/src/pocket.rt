ghost use Rattle.std.specs.Prelude.{◌≡◌, IfOk};
ghost use Rattle.agent_text.specs.Pockets.{PocketView, LoadsFrom, SavesTo};

use desk_base::Bytes;
use rel_lexer::Text;
use std::alloc::AllocError;

/// What a pocket answers that is asked for its text.
#[derive(Drop)]
pub enum Loaded {
    /// No text is saved.
    Nothing,
    /// The saved text.
    Saved(Bytes),
    /// The count of faults went up.
    Failed,
    /// Want of memory.
    Memory,
}

impl Loaded {
    /// The same answer once more. The error is want of memory.
    pub fn copy(&self) -> Result<Loaded, AllocError>
        ensures { IfOk result (λ loaded. loaded ≡ self.now) }
    {
        Ok(match self {
            Loaded::Nothing => Loaded::Nothing,
            Loaded::Saved(text) => Loaded::Saved(text.copy()?),
            Loaded::Failed => Loaded::Failed,
            Loaded::Memory => Loaded::Memory,
        })
    }
}

/// What a pocket answers that was given a text to save.
#[derive(Clone, Copy)]
pub enum SaveResult {
    /// The text is the saved one.
    Done,
    /// The old text or the new one is saved, and the count of faults went up.
    Failed,
    /// Want of memory. The old text is saved.
    Memory,
}

/// What outlives a stop: one text.
pub trait Pocket {
    /// What it tells of itself.
    ghost told: { Self → PocketView };

    /// Names the place at which the text is kept. The error is want of memory.
    fn open(&mut self, place: &Text) -> Result<(), AllocError>
        ensures { told self.new ≡ told self.old };

    /// The saved text.
    fn load(&mut self) -> Loaded
        ensures { LoadsFrom (told self.old) result (told self.new) };

    /// Saves this text in place of the one before.
    fn save(&mut self, text: &[u8]) -> SaveResult
        ensures { SavesTo text.now (told self.old) result (told self.new) };
}
