ghost use Rattle.std.specs.Prelude.{◌≡◌, ◌++◌, ◌∷◌, [], ◌↔◌, IsTrue, IfOk};
ghost use Rattle.fix_site.specs.declared.block_reader.Kind.TheVariants.{Baseline, Action};
ghost use Rattle.fix_site.specs.BlockHeads.{CanBegin};
ghost use Rattle.fix_site.specs.Blocks.{HasFixlet, HasId};
ghost use Rattle.fix_site.specs.KnownIds.{HasJust, IsFixletWith, IsIn};

use crate::block::{Block, Blocks};
use std::alloc::{AllocError, Global};
use std::collections::BTreeSet;
use std::marker::Model;

/// The blocks of a site as far as they are read, and their ids, so that none is looked for block by block. Contracts see the list of
/// the blocks.
#[derive(Drop)]
pub(crate) struct BlocksSoFar {
    blocks: Vec<Block>,
    /// The ids of all blocks.
    ids: BTreeSet<u64>,
    /// Those of the fixlets.
    fixlets: BTreeSet<u64>,
}

impl Model for BlocksSoFar {
    ghost use Rattle.std.specs.Prelude.{List};
    ghost use Rattle.fix_site.specs.declared.block.Block.{Block};
    ghost use Rattle.fix_site.specs.KnownIds.{KnowsIds};

    ghost Value = { List Block };

    ghost view = { λ b. b.blocks.items };

    ghost invariant = { KnowsIds };
}

impl BlocksSoFar {
    /// Before the first block.
    pub(crate) fn new(alloc: Global) -> BlocksSoFar
        ensures { result ≡ [] }
    {
        BlocksSoFar {
            blocks: Vec::new(alloc),
            ids: BTreeSet::new(alloc),
            fixlets: BTreeSet::new(alloc),
        }
    }

    /// After this block too.
    pub(crate) fn with(self, block: Block) -> Result<BlocksSoFar, AllocError>
        ensures { IfOk result (λ all. all ≡ self ++ block ∷ []) }
    {
        let BlocksSoFar {
            mut blocks,
            ids,
            fixlets,
        } = self;
        let ids = with_id(ids, block.id())?;
        let fixlets = with_fixlet(fixlets, &block)?;
        blocks.push(block)?;
        Ok(BlocksSoFar {
            blocks,
            ids,
            fixlets,
        })
    }

    /// Whether one of the blocks has this id.
    pub(crate) fn has_id(&self, id: u64) -> bool
        ensures { IsTrue result ↔ HasId self.now id }
    {
        self.ids.contains(&id)
    }

    /// Whether one of them is a fixlet with this id.
    pub(crate) fn has_fixlet(&self, id: u64) -> bool
        ensures { IsTrue result ↔ HasFixlet self.now id }
    {
        self.fixlets.contains(&id)
    }

    /// Whether one of them is a fixlet.
    pub(crate) fn has_fixlets(&self) -> bool
        ensures { IsTrue result ↔ CanBegin self.now Baseline 0 }
    {
        match self.fixlets.first() {
            Some(_) => true,
            None => false,
        }
    }

    /// Whether all of their ids are below this one.
    pub(crate) fn are_below(&self, id: u64) -> bool
        ensures { IsTrue result ↔ CanBegin self.now Action id }
    {
        match self.ids.last() {
            Some(greatest) => *greatest < id,
            None => true,
        }
    }

    /// The blocks themselves.
    pub(crate) fn into_blocks(self) -> Blocks
        ensures { result ≡ self }
    {
        let BlocksSoFar { blocks, .. } = self;
        Blocks::from_vec(blocks)
    }
}

/// The set with this id too.
fn with_id(mut ids: BTreeSet<u64>, id: u64) -> Result<BTreeSet<u64>, AllocError>
    ensures { IfOk result (λ all. HasJust all (IsIn ids (λ other. id ≡ other))) }
{
    ids.insert(id)?;
    Ok(ids)
}

/// The set with the block's id too, if it is a fixlet.
fn with_fixlet(ids: BTreeSet<u64>, block: &Block) -> Result<BTreeSet<u64>, AllocError>
    ensures { IfOk result (λ all. HasJust all (IsIn ids (IsFixletWith block.now))) }
{
    match block {
        Block::Fixlet(fixlet) => with_id(ids, fixlet.id),
        Block::Baseline(_) | Block::Action(_) => Ok(ids),
    }
}
