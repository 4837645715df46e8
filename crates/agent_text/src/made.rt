ghost use Rattle.std.specs.Prelude.{◌≡◌, OnOk, OnErr};
ghost use Rattle.agent_text.specs.MadeTexts.{Leaves, made_with, nothing_made};

use std::alloc::{AllocError, Global};
use std::marker::Model;

/// The texts of the first so many of a list, one behind another, and the most bytes that they need. Contracts see the three.
#[derive(Drop)]
pub struct Made {
    count: usize,
    most: usize,
    text: Vec<u8>,
}

impl Model for Made {
    ghost use Rattle.agent_text.specs.MadeTexts.{PlainMade};

    ghost Value = { PlainMade };

    ghost view = { λ m. record { count = m.count; most = m.most; text = m.text.items } };
}

impl Made {
    /// No texts. It takes no memory.
    pub fn new(alloc: Global) -> Made
        ensures { result ≡ nothing_made }
    {
        Made {
            count: 0,
            most: 0,
            text: Vec::new(alloc),
        }
    }

    /// Of how many the texts are made.
    pub fn count(&self) -> usize
        ensures { result ≡ self.now.count }
    {
        self.count
    }

    /// The most bytes that these texts need.
    pub fn most(&self) -> usize
        ensures { result ≡ self.now.most }
    {
        self.most
    }

    /// These texts.
    pub fn text(&self) -> &[u8]
        ensures { result.now ≡ self.now.text }
    {
        self.text.as_slice()
    }

    /// Adds the text of the next one, which needs so many bytes at most. At an error, want of memory, nothing has changed.
    pub fn add(&mut self, text: &[u8], most: usize) -> Result<(), AllocError>
        ensures ok { OnOk result (self.new ≡ made_with text.now most self.old) }
        ensures err { OnErr result (self.new ≡ self.old) }
    {
        let Some(count) = self.count.checked_add(1) else {
            return Err(AllocError);
        };
        let Some(most) = self.most.checked_add(most) else {
            return Err(AllocError);
        };
        self.text.extend_from_slice(text)?;
        self.count = count;
        self.most = most;
        Ok(())
    }

    /// The one at this place changes: where its text is among these, all are forgotten. Their room is kept.
    pub fn leave(&mut self, place: usize)
        ensures { Leaves place self.old self.new }
    {
        if place < self.count {
            self.count = 0;
            self.most = 0;
            self.text.clear();
        }
    }
}
