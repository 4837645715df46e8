ghost use Rattle.std.specs.Prelude.{◌≡◌, Contains, IfOk, MatchOption};
ghost use Rattle.fix_site.specs.Blocks.{HasId, block_id};

use crate::block::{Block, Blocks};
use rel_lexer::Text;
use std::alloc::AllocError;

/// A collection of content under a name, or under `actionsite` the actions.
#[derive(Drop)]
pub struct Site {
    /// 1 to 64 ASCII letters, digits, `-`, `_` and `.`.
    pub name: Text,
    /// From 1 to 2^53.
    pub version: u64,
    /// No id stands twice. Only the site `actionsite` has actions, in ascending order of ids, and it has nothing else.
    pub blocks: Blocks,
}

impl Site {
    /// The block with this id, if there is one.
    pub fn block(&self, id: u64) -> Option<&Block>
        ensures { MatchOption result (¬ HasId self.now.blocks id)
            (λ block. Contains self.now.blocks block.now × (block_id block.now ≡ id)) }
    {
        self.blocks.as_slice().iter().find(|block| block.id() == id)
    }

    /// The same site once more.
    pub fn copy(&self) -> Result<Site, AllocError>
        ensures { IfOk result (λ site. site ≡ self.now) }
    {
        Ok(Site {
            name: self.name.copy()?,
            version: self.version,
            blocks: self.blocks.copy()?,
        })
    }
}
