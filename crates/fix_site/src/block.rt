ghost use Rattle.std.specs.Prelude.{◌≡◌, IfOk};
ghost use Rattle.fix_site.specs.Blocks.{block_id};

use crate::action::Action;
use crate::baseline::Baseline;
use crate::fixlet::Fixlet;
use std::alloc::AllocError;
use std::marker::Model;

/// What a site is made of.
#[derive(Drop)]
pub enum Block {
    Fixlet(Fixlet),
    Baseline(Baseline),
    Action(Action),
}

impl Block {
    /// The id of the block, from 1 to 2^53.
    pub fn id(&self) -> u64
        ensures { result ≡ block_id self.now }
    {
        match self {
            Block::Fixlet(fixlet) => fixlet.id,
            Block::Baseline(baseline) => baseline.id,
            Block::Action(action) => action.id,
        }
    }

    /// The same block once more.
    pub fn copy(&self) -> Result<Block, AllocError>
        ensures { IfOk result (λ block. block ≡ self.now) }
    {
        match self {
            Block::Fixlet(fixlet) => Ok(Block::Fixlet(fixlet.copy()?)),
            Block::Baseline(baseline) => Ok(Block::Baseline(baseline.copy()?)),
            Block::Action(action) => Ok(Block::Action(action.copy()?)),
        }
    }
}

/// Blocks in their order. Contracts see the list of them.
#[derive(Drop)]
pub struct Blocks {
    items: Vec<Block>,
}

impl Model for Blocks {
    ghost use Rattle.std.specs.Prelude.{List};
    ghost use Rattle.fix_site.specs.declared.block.Block.{Block};

    ghost Value = { List Block };

    ghost view = { λ b. b.items.items };
}

impl Blocks {
    /// The list of these blocks. It takes no memory.
    pub fn from_vec(blocks: Vec<Block>) -> Blocks
        ensures { result ≡ blocks.items }
    {
        Blocks { items: blocks }
    }

    /// The blocks, to be changed. It takes no memory.
    pub fn into_vec(self) -> Vec<Block>
        ensures { result.items ≡ self }
    {
        self.items
    }

    /// The blocks.
    pub fn as_slice(&self) -> &[Block]
        ensures { result.now ≡ self.now }
    {
        self.items.as_slice()
    }

    /// The same blocks once more.
    pub fn copy(&self) -> Result<Blocks, AllocError>
        ensures { IfOk result (λ blocks. blocks ≡ self.now) }
    {
        let mut copies = Vec::new(*self.items.allocator());
        for block in self.items.as_slice() {
            copies.push(block.copy()?)?;
        }
        Ok(Blocks::from_vec(copies))
    }
}
