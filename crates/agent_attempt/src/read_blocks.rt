ghost use Rattle.std.specs.Prelude.{◌≡◌, ◌++◌, ◌∷◌, [], map, All, IfOk};
ghost use Rattle.fix_site.specs.Blocks.{IsBlock};
ghost use Rattle.agent_attempt.specs.ReadBlocks.{shown_block};
ghost use Rattle.agent_attempt.specs.FoundContents.{FindsBlock};
ghost use Rattle.agent_attempt.specs.BlockPlaces.{AddsPlace};

use crate::asked_block::ask_blocks;
use crate::read_block::ReadBlock;
use fix_site::Blocks;
use std::alloc::{AllocError, Global};
use std::collections::BTreeMap;
use std::marker::Model;

/// Blocks whose texts were read, in their order, and where those of each id stand, so that none is looked for block by block. Contracts
/// see the list of the blocks.
#[derive(Drop)]
pub struct ReadBlocks {
    blocks: Vec<ReadBlock>,
    /// The place of the first block of each id.
    places: BTreeMap<u64, usize>,
}

impl Model for ReadBlocks {
    ghost use Rattle.std.specs.Prelude.{List, map};
    ghost use Rattle.fix_site.specs.declared.block.Block.{Block};
    ghost use Rattle.agent_attempt.specs.ReadBlocks.{shown_block};
    ghost use Rattle.agent_attempt.specs.BlockPlaces.{ArePlaces};

    ghost Value = { List Block };

    ghost view = { λ b. map shown_block b.blocks.items };

    ghost invariant = { λ b. ArePlaces b.places b.blocks.items };
}

impl ReadBlocks {
    /// No block.
    fn new(alloc: Global) -> ReadBlocks
        ensures { result ≡ [] }
    {
        ReadBlocks {
            blocks: Vec::new(alloc),
            places: BTreeMap::new(alloc),
        }
    }

    /// Reads the texts of blocks, in their order. The error is want of memory, here and below.
    pub(crate) fn read(alloc: Global, blocks: Blocks) -> Result<ReadBlocks, AllocError>
        requires { All IsBlock blocks }
        ensures { IfOk result (λ read. read ≡ blocks) }
    {
        // What a turn asks is read of all blocks first, so that it lies together.
        let asked = ask_blocks(alloc, blocks)?;
        let mut done = ReadBlocks::new(alloc);
        for block in asked {
            done = done.with(ReadBlock::read(alloc, block)?)?;
        }
        Ok(done)
    }

    /// The same with this block behind them.
    fn with(self, block: ReadBlock) -> Result<ReadBlocks, AllocError>
        ensures { IfOk result (λ all. all ≡ self ++ shown_block block ∷ []) }
    {
        let ReadBlocks { mut blocks, places } = self;
        let places = with_place(places, block.id(), blocks.len())?;
        blocks.push(block)?;
        Ok(ReadBlocks { blocks, places })
    }

    /// The blocks, in their order.
    pub(crate) fn as_slice(&self) -> &[ReadBlock]
        ensures { map shown_block result.now ≡ self.now }
    {
        self.blocks.as_slice()
    }

    /// The place of the first block of this id, 0 where there is none.
    pub(crate) fn place(&self, id: u64) -> usize {
        match self.places.get(&id) {
            Some(place) => *place,
            None => 0,
        }
    }

    /// The first block of this id, if there is one.
    pub(crate) fn get(&self, id: u64) -> Option<&ReadBlock>
        ensures { FindsBlock id self.now result }
    {
        match self.places.get(&id) {
            Some(place) => self.blocks.as_slice().get(*place),
            None => None,
        }
    }
}

/// The places with that of a block of this id, unless one of that id stands before it.
fn with_place(
    mut places: BTreeMap<u64, usize>,
    id: u64,
    place: usize,
) -> Result<BTreeMap<u64, usize>, AllocError>
    ensures { IfOk result (λ all. AddsPlace places id place all) }
{
    if !places.contains_key(&id) {
        places.insert(id, place)?;
    }
    Ok(places)
}
