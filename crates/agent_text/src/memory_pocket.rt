ghost use Rattle.std.specs.Prelude.{◌≡◌, option_copied};
ghost use Rattle.agent_text.specs.Pockets.{LoadsFrom, SavesTo};
ghost use Rattle.agent_text.specs.PocketStates.{LoadsMemory, SavesMemory, empty_pocket, pocket_view};

use crate::pocket::{Loaded, Pocket, SaveResult};
use crate::sure_pocket::SurePocket;
use desk_base::{Bytes, Calls};
use rel_lexer::Text;
use std::alloc::{AllocError, Global};
use std::marker::Model;

/// A pocket in memory. A load or a save that fails leaves its text.
#[derive(Drop)]
pub struct MemoryPocket {
    pocket: SurePocket,
    loads: Calls,
    saves: Calls,
}

impl Model for MemoryPocket {
    ghost use Rattle.agent_text.specs.PocketStates.{PocketState};

    ghost Value = { PocketState };

    ghost view = { λ p. record { text = p.pocket; loads = p.loads; saves = p.saves } };
}

impl MemoryPocket {
    /// A pocket without a text. The loads and the saves with these numbers fail, each counted from 1.
    pub fn new(alloc: Global, loads: Vec<u32>, saves: Vec<u32>) -> MemoryPocket
        ensures { result ≡ empty_pocket loads.items saves.items }
    {
        MemoryPocket {
            pocket: SurePocket::new(alloc),
            loads: Calls::new(alloc, loads),
            saves: Calls::new(alloc, saves),
        }
    }

    /// The saved text, if there is one.
    pub fn text(&self) -> Option<&Bytes>
        ensures { option_copied result ≡ self.now.text }
    {
        self.pocket.text()
    }
}

impl Pocket for MemoryPocket {
    ghost told = { pocket_view };

    fn open(&mut self, _place: &Text) -> Result<(), AllocError>
        ensures { self.new ≡ self.old }
    {
        Ok(())
    }

    fn load(&mut self) -> Loaded
        ensures loads { LoadsFrom (pocket_view self.old) result (pocket_view self.new) }
        ensures memory { LoadsMemory self.old self.new result }
    {
        if self.loads.begin() {
            self.loads.fault();
            return Loaded::Failed;
        }
        self.pocket.load()
    }

    fn save(&mut self, text: &[u8]) -> SaveResult
        ensures saves { SavesTo text.now (pocket_view self.old) result (pocket_view self.new) }
        ensures memory { SavesMemory self.old self.new result }
    {
        if self.saves.begin() {
            self.saves.fault();
            return SaveResult::Failed;
        }
        self.pocket.save(text)
    }
}
