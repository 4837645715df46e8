ghost use Rattle.std.specs.Prelude.{◌≡◌, ◌≢◌, None, option_copied};
ghost use Rattle.agent_text.specs.Pockets.{LoadsFrom, SavesTo};
ghost use Rattle.agent_text.specs.PocketStates.{sure_view};

use crate::pocket::{Loaded, Pocket, SaveResult};
use desk_base::Bytes;
use rel_lexer::Text;
use std::alloc::{AllocError, Global};
use std::marker::Model;

/// A pocket in memory of which no load or save fails. Contracts see the saved text, or that there is none.
#[derive(Drop)]
pub struct SurePocket {
    alloc: Global,
    text: Option<Bytes>,
}

impl Model for SurePocket {
    ghost use Rattle.std.specs.Prelude.{List, Option, ℕ};

    ghost Value = { Option (List ℕ) };

    ghost view = { λ p. p.text };
}

impl SurePocket {
    /// A pocket without a text. It takes no memory.
    pub fn new(alloc: Global) -> SurePocket
        ensures { result ≡ None }
    {
        SurePocket { alloc, text: None }
    }

    /// The saved text, if there is one.
    pub fn text(&self) -> Option<&Bytes>
        ensures { option_copied result ≡ self.now }
    {
        self.text.as_ref()
    }
}

impl Pocket for SurePocket {
    ghost told = { sure_view };

    fn open(&mut self, _place: &Text) -> Result<(), AllocError>
        ensures { self.new ≡ self.old }
    {
        Ok(())
    }

    fn load(&mut self) -> Loaded
        ensures loads { LoadsFrom (sure_view self.old) result (sure_view self.new) }
        ensures rest { self.new ≡ self.old }
        ensures never { result ≢ Loaded.Failed }
    {
        let Some(text) = &self.text else {
            return Loaded::Nothing;
        };
        match text.copy() {
            Ok(copy) => Loaded::Saved(copy),
            Err(_) => Loaded::Memory,
        }
    }

    fn save(&mut self, text: &[u8]) -> SaveResult
        ensures saves { SavesTo text.now (sure_view self.old) result (sure_view self.new) }
        ensures never { result ≢ SaveResult.Failed }
    {
        match Bytes::from_slice(self.alloc, text) {
            Ok(copy) => {
                self.text = Some(copy);
                SaveResult::Done
            }
            Err(_) => SaveResult::Memory,
        }
    }
}
